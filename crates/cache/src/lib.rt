// The cache of verdicts, document 01's shelf: asked first, and filled by the search.
#![tactic(auto)]

mod layout;
mod record;
mod records;

ghost use Rattle.std.specs.Prelude.{◌≡◌, ◌+◌, ◌≤◌, false, length, MatchOption};
ghost use Rattle.canonical.specs.Writing.{form_buffer};
ghost use Rattle.cache.specs.Layouts.{Laid, header_length, longest};
ghost use Rattle.cache.specs.Versions.{version1};
ghost use Rattle.cache.specs.Entries.{entry_length, entry_record};
ghost use Rattle.cache.specs.Caches.{used_of, sound_as, sound};
ghost use Rattle.cache.specs.Walks.{Opened};
ghost use Rattle.cache.specs.Consulting.{Room, Searches, appended, make_empty_reply, make_empty_cache};
ghost use Rattle.cache.specs.Consulting.{look_up_as, consult_answer_as, consult_cache_as, consult_store_as};
ghost use Rattle.cache.specs.Drawn.{look_up_in, consult_answer, consult_cache, consult_store};
ghost use Rattle.cache.specs.Growing.{Carried};

use automata::refusals::Refusal;
use canonical::write_canonical;
use encoding::{be32, bytes_of, put};
use layout::{HEADER, LONGEST, Layout, USED_AT, VERSION_AT};
use record::Entry;
use records::Records;
use search::search;
use search::verdict::Answer;

// The used length, which is u32 in the bytes and usize in the code: it is cast there and back, since they have no `From` for each other.
fn used(cache: &[u8]) -> usize
    requires { header_length ≤ length cache.now }
    ensures value { result ≡ used_of cache.now }
    ensures fits { result ≤ longest }
{
    be32(cache, USED_AT) as usize
}

// An empty cache, or 12 if it has no room.
#[tactic(auto, unfolding(crate::specs::Consulting::make_empty_reply, crate::specs::Consulting::make_empty_as))]
pub fn make_empty(cache: &mut [u8]) -> Result<(), Refusal>
    ensures value { result ≡ make_empty_reply cache.old }
    ensures cache_after { cache.new ≡ make_empty_cache cache.old }
{
    if cache.len() < HEADER {
        return Err(Refusal::CacheFull);
    }
    put(cache, USED_AT, &bytes_of(HEADER as u32));
    put(cache, VERSION_AT, &[Layout::version_1().version]);
    Ok(())
}

// ---- asking
// Cache, automaton, form and store are buffers that a caller lends, as the C interface has them, so they stay parameters side by side.
// The records of a sound cache, none where it isn't sound.
#[tactic(auto, unfolding(crate::specs::Caches::sound_as, crate::specs::Caches::sound_header))]
fn open_as(cache: &[u8], layout: Layout) -> Option<Records<'_>>
    requires { Laid layout }
    ensures { MatchOption result (sound_as layout cache.now ≡ false) (Opened layout cache.now) }
{
    if cache.len() < HEADER {
        return None;
    }
    let bytes = cache.get(HEADER..used(cache))?;
    let records = Records { bytes, layout };
    if cache[VERSION_AT] == layout.version && records.are_sound() && records.all_distinct() {
        Some(records)
    } else {
        None
    }
}

fn open(cache: &[u8]) -> Option<Records<'_>>
    ensures { MatchOption result (sound cache.now ≡ false) (Opened version1 cache.now) }
{
    open_as(cache, Layout::version_1())
}

// Whether the bytes are a sound cache.
pub fn sound(cache: &[u8]) -> bool
    ensures { result ≡ sound cache.now }
{
    open(cache).is_some()
}

// What a cache says of a form.
#[tactic(auto, unfolding(crate::specs::Consulting::look_up_as))]
fn look_up_form(cache: &[u8], form: &[u8]) -> Result<Option<Answer>, Refusal>
    ensures { result ≡ look_up_as version1 cache.now form.now }
{
    let records = open(cache).ok_or(Refusal::UnsoundCache)?;
    Ok(records.look_in(form))
}

// What a cache says of an automaton, whose form is written first. It only reads the cache.
#[tactic(auto, using(crate::proofs::consulting::Meeting::form_within, crate::proofs::consulting::Meeting::form_taken))]
pub fn look_up(cache: &[u8], automaton: &[u8], form: &mut [u8]) -> Result<Option<Answer>, Refusal>
    ensures value { result ≡ look_up_in cache.now automaton.now (length form.old) }
    ensures form_after { form.new ≡ form_buffer automaton.now form.old }
{
    let length = write_canonical(automaton, form)?;
    look_up_form(cache, &form[..length])
}

// ---- filing
// A record behind those that are there: the free part is lent to its writer, then the used length follows.
fn append(cache: &mut [u8], entry: &Entry<'_>)
    requires { Room cache.old (entry_length entry.now) }
    ensures { cache.new ≡ appended cache.old (entry_record entry.now) }
{
    let used = used(cache);
    let next = used + entry.length();
    entry.write(&mut cache[used..]);
    put(cache, USED_AT, &bytes_of(next as u32));
}

// The search of an automaton that is not in the sound cache: a verdict is filed, a refusal is not.
#[tactic(auto, unfolding(crate::specs::Consulting::full, crate::specs::Consulting::filing, search::specs::Answers::answer_in))]
fn search_and_file(
    cache: &mut [u8],
    layout: Layout,
    automaton: &[u8],
    store: &mut [i32],
) -> Result<Answer, Refusal>
    requires laid { Laid layout }
    requires used_fits { (header_length ≤ used_of cache.old) × (used_of cache.old ≤ length cache.old) }
    ensures { Searches layout cache.old automaton.now store.old result cache.new store.new }
{
    let used = used(cache);
    // An entry's length, before there is an answer to make one of.
    let length = layout.head + automaton.len();
    if cache.len() - used < length || LONGEST - used < length {
        return Err(Refusal::CacheFull);
    }
    let answer = search(automaton, store)?.answer;
    let entry = Entry {
        layout,
        answer,
        automaton,
    };
    append(cache, &entry);
    Ok(answer)
}

// ---- consulting
// The verdict of a form: the filed one, or the search's, which is filed.
fn consult_form(cache: &mut [u8], form: &[u8], store: &mut [i32]) -> Result<Answer, Refusal>
    ensures value { result ≡ consult_answer_as version1 cache.old form.now (length store.old) }
    ensures cache_after { cache.new ≡ consult_cache_as version1 cache.old form.now (length store.old) }
    ensures store_after { store.new ≡ consult_store_as version1 cache.old form.now store.old }
{
    match look_up_form(cache, form)? {
        Some(answer) => Ok(answer),
        None => search_and_file(cache, Layout::version_1(), form, store),
    }
}

// The verdict of an automaton: that of its form, which is written first.
#[tactic(auto, using(crate::proofs::consulting::Meeting::form_within, crate::proofs::consulting::Meeting::form_taken))]
pub fn consult(
    cache: &mut [u8],
    automaton: &[u8],
    form: &mut [u8],
    store: &mut [i32],
) -> Result<Answer, Refusal>
    ensures value { result ≡ consult_answer cache.old automaton.now (length form.old) (length store.old) }
    ensures cache_after { cache.new
        ≡ consult_cache cache.old automaton.now (length form.old) (length store.old) }
    ensures form_after { form.new ≡ form_buffer automaton.now form.old }
    ensures store_after { store.new
        ≡ consult_store cache.old automaton.now (length form.old) store.old }
    ensures carried { Carried cache.old automaton.now (length form.old) store.old result
        cache.new store.new }
{
    let length = write_canonical(automaton, form)?;
    consult_form(cache, &form[..length], store)
}
