// The search, the run and its judge, and the cache, open to C and to Rust (include/robustness.h).
#![tactic(auto)]

ghost use Rattle.std.specs.Prelude.{◌≡◌, true, length, ◌↔◌};
ghost use Rattle.automata.specs.Refusals.{refusal_of};
ghost use Rattle.search.specs.Answers.{search_findings, search_store};
ghost use Rattle.cache.specs.Caches.{sound};
ghost use Rattle.cache.specs.Consulting.{make_empty_reply, make_empty_cache};
ghost use Rattle.cache.specs.Drawn.{look_up_in, consult_answer, consult_cache, consult_store};
ghost use Rattle.canonical.specs.Writing.{form_answer, form_buffer};
ghost use Rattle.automata.specs.Numbers.{number_in};
ghost use Rattle.exports.specs.Replies.{findings_numbers, filed, over, told, findings_told, number_told, filed_told, lookup_told, passes_told};
ghost use Rattle.exports.specs.Replies.{sound_number};
ghost use Rattle.run_judge.specs.Judging.{judgement_of};
ghost use Rattle.run_judge.specs.Passing.{Passes};
ghost use Rattle.run_writer.specs.Told.{Tells};
ghost use Rattle.run_writer.specs.Writing.{run_findings, run_buffer};

use automata::opened::Automaton;
use automata::refusals::Refusal;
use cache::{consult, look_up, make_empty, sound};
use canonical::write_canonical;
use run_judge::judge;
use run_writer::write_run;
use search::outcome::Dropped;
use search::search;
use search::verdict::{Answer, Findings, Numbers};
use zones::fraction::Fraction;

// What a cache tells beside an answer: no exact fraction and no counts of dropped zones.
// They are zeros and no Option: include/robustness.h gives C eight numbers of every answer, and 0 for those that a cache has not.
fn filed_findings(answer: Answer) -> Findings
    ensures { result ≡ filed answer }
{
    Findings {
        answer,
        exact: Fraction { n: 0, d: 0 },
        dropped: Dropped::NONE,
    }
}

// What is told of findings: kind, n, d, zones, exact n, exact d, again and inside.
#[tactic(auto, unfolding(crate::specs::Replies::findings_numbers))]
fn numbers(found: Findings) -> [u64; 8]
    ensures { result ≡ findings_numbers found }
{
    let x = Numbers::from(found.answer.verdict);
    [
        u64::from(x.kind),
        x.n,
        x.d,
        u64::from(found.answer.zones),
        found.exact.n,
        found.exact.d,
        found.dropped.again,
        found.dropped.inside,
    ]
}

// As many of the numbers as are lent.
#[tactic(auto, using(crate::proofs::Telling::over_front))]
fn write_over(numbers: [u64; 8], answer: &mut [u64])
    ensures { answer.new ≡ over numbers answer.old }
{
    let n = answer.len().min(numbers.len());
    answer[..n].copy_from_slice(&numbers[..n]);
}

// What C gets of a reply: 0, or the refusal's number.
fn number_of<T>(reply: &Result<T, Refusal>) -> u32
    ensures { result ≡ number_in reply.now }
{
    match reply {
        Ok(_) => 0,
        Err(refusal) => refusal.number(),
    }
}

// ---- what is told
// One generic function in place of the three would take a closure that writes into what is lent: its contract would be as long as theirs together.
// What is found: 0 with its numbers, or the refusal's number alone.
#[tactic(auto, unfolding(crate::specs::Replies::findings_told))]
fn tell(found: Result<Findings, Refusal>, answer: &mut [u64]) -> u32
    ensures value { result ≡ number_in found }
    ensures answer_after { answer.new ≡ findings_told found answer.old }
{
    if let Ok(x) = found {
        write_over(numbers(x), answer);
    }
    number_of(&found)
}

// A number: 0 with it, or the refusal's number alone.
#[tactic(auto, unfolding(crate::specs::Replies::number_told))]
fn tell_number(reply: Result<u64, Refusal>, to: &mut u64) -> u32
    ensures value { result ≡ number_in reply }
    ensures to_after { to.new ≡ number_told reply to.old }
{
    if let Ok(n) = reply {
        *to = n;
    }
    number_of(&reply)
}

// A lookup: 0 with whether the automaton is filed, and then its numbers, or the refusal's number alone.
#[tactic(auto, unfolding(crate::specs::Replies::filed_told, crate::specs::Replies::lookup_told))]
fn tell_lookup(
    found: Result<Option<Answer>, Refusal>,
    is_filed: &mut u64,
    answer: &mut [u64],
) -> u32
    ensures value { result ≡ number_in found }
    ensures filed_after { is_filed.new ≡ filed_told found is_filed.old }
    ensures answer_after { answer.new ≡ lookup_told found answer.old }
{
    if let Ok(on_file) = found {
        *is_filed = u64::from(on_file.is_some());
        if let Some(x) = on_file {
            write_over(numbers(filed_findings(x)), answer);
        }
    }
    number_of(&found)
}

// ---- what C calls: each buffer that it lends is a parameter, as include/robustness.h declares them
// 0, or the number by which the automaton is turned down.
#[unsafe(no_mangle)]
pub extern "C" fn robustness_refusal(automaton: &[u8]) -> u32
    ensures { result ≡ refusal_of automaton.now }
{
    number_of(&Automaton::open(automaton))
}

// The form of an automaton, its edges in order and each once; and its length, by a cast, since u64 has no `From` for usize.
#[unsafe(no_mangle)]
pub extern "C" fn robustness_canonical(automaton: &[u8], form: &mut [u8], written: &mut u64) -> u32
    ensures value { result ≡ number_in (form_answer automaton.now (length form.old)) }
    ensures form_after { form.new ≡ form_buffer automaton.now form.old }
    ensures written_after { written.new ≡ number_told (form_answer automaton.now (length form.old)) written.old }
{
    tell_number(write_canonical(automaton, form).map(|n| n as u64), written)
}

// What the search finds, told; the kept zones stand in the store.
#[unsafe(no_mangle)]
pub extern "C" fn robustness_search(automaton: &[u8], store: &mut [i32], answer: &mut [u64]) -> u32
    ensures value { result ≡ number_in (search_findings automaton.now (length store.old)) }
    ensures store_after { store.new ≡ search_store automaton.now store.old }
    ensures answer_after { answer.new
        ≡ findings_told (search_findings automaton.now (length store.old)) answer.old }
{
    tell(search(automaton, store), answer)
}

// The same, or 14; and where the answer is reached, a run that ends at the target.
#[unsafe(no_mangle)]
pub extern "C" fn robustness_write_run(
    automaton: &[u8],
    store: &mut [i32],
    run: &mut [i64],
    answer: &mut [u64],
) -> u32
    ensures value { result ≡ number_in (run_findings automaton.now (length store.old) (length run.old)) }
    ensures store_after { store.new ≡ search_store automaton.now store.old }
    ensures run_after { run.new ≡ run_buffer automaton.now (length store.old) run.old }
    ensures answer_after { answer.new
        ≡ findings_told (run_findings automaton.now (length store.old) (length run.old)) answer.old }
    ensures tells { Tells automaton.now (length store.old) run.new
        (run_findings automaton.now (length store.old) (length run.old)) }
{
    tell(write_run(automaton, store, run), answer)
}

// Whether the buffer begins with a run of the automaton that ends at the target, told.
#[tactic(auto, unfolding(crate::specs::Replies::number_told, crate::specs::Replies::passes_told))]
#[unsafe(no_mangle)]
pub extern "C" fn robustness_judge(automaton: &[u8], run: &[i64], passes: &mut u64) -> u32
    ensures value { result ≡ number_in (judgement_of automaton.now run.now) }
    ensures passes_after { passes.new ≡ passes_told (judgement_of automaton.now run.now) passes.old }
    ensures yes { (judgement_of automaton.now run.now ≡ Ok true) ↔ Passes automaton.now run.now }
{
    tell_number(judge(automaton, run).map(u64::from), passes)
}

// 0, or 12 where fewer than five bytes are lent.
#[unsafe(no_mangle)]
pub extern "C" fn robustness_make_empty(cache: &mut [u8]) -> u32
    ensures value { result ≡ number_in (make_empty_reply cache.old) }
    ensures cache_after { cache.new ≡ make_empty_cache cache.old }
{
    number_of(&make_empty(cache))
}

// 0 for a sound cache, else 11.
#[tactic(auto, unfolding(crate::specs::Replies::sound_number))]
#[unsafe(no_mangle)]
pub extern "C" fn robustness_sound(cache: &[u8]) -> u32
    ensures { result ≡ sound_number (sound cache.now) }
{
    if sound(cache) {
        0
    } else {
        Refusal::UnsoundCache.number()
    }
}

// What is filed of an automaton, told; its form is written first.
#[unsafe(no_mangle)]
pub extern "C" fn robustness_look_up(
    cache: &[u8],
    automaton: &[u8],
    form: &mut [u8],
    filed: &mut u64,
    answer: &mut [u64],
) -> u32
    ensures value { result ≡ number_in (look_up_in cache.now automaton.now (length form.old)) }
    ensures form_after { form.new ≡ form_buffer automaton.now form.old }
    ensures filed_after { filed.new
        ≡ filed_told (look_up_in cache.now automaton.now (length form.old)) filed.old }
    ensures answer_after { answer.new
        ≡ lookup_told (look_up_in cache.now automaton.now (length form.old)) answer.old }
{
    tell_lookup(look_up(cache, automaton, form), filed, answer)
}

// The filed verdict, or that of the search, which is filed; told. The form is written first.
#[tactic(auto, unfolding(crate::specs::Replies::told, crate::specs::Replies::findings_told))]
#[unsafe(no_mangle)]
pub extern "C" fn robustness_consult(
    cache: &mut [u8],
    automaton: &[u8],
    form: &mut [u8],
    store: &mut [i32],
    answer: &mut [u64],
) -> u32
    ensures value { result
        ≡ number_in (consult_answer cache.old automaton.now (length form.old) (length store.old)) }
    ensures cache_after { cache.new
        ≡ consult_cache cache.old automaton.now (length form.old) (length store.old) }
    ensures form_after { form.new ≡ form_buffer automaton.now form.old }
    ensures store_after { store.new
        ≡ consult_store cache.old automaton.now (length form.old) store.old }
    ensures answer_after { answer.new
        ≡ told (consult_answer cache.old automaton.now (length form.old) (length store.old))
        answer.old }
{
    tell(
        consult(cache, automaton, form, store).map(filed_findings),
        answer,
    )
}
