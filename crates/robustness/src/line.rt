// The documents' line for what a search finds, in texts whose types bound their length.
// A refusal is any number, as the definition has it: `answer` hands over that of the table.
// Pushed, and not printed by `Display`: no contract says when a `write!` is `Ok`, and the line is always made.
ghost use Rattle.std.specs.Prelude.{◌≡◌};
ghost use Rattle.robustness.specs.Lines.{decimal, holding_text, verdict_text, findings_text, line_of};

use arrayvec::ArrayString;
use itoa::Buffer;
use search::outcome::Dropped;
use search::verdict::{Answer, Findings, Holding, Verdict};

#[tactic(auto, using(crate::proofs::Decimals::printed_decimal))]
fn decimal(n: u64) -> ArrayString<20>
    ensures { result.bytes ≡ decimal n }
{
    let mut text = ArrayString::new();
    text.push_str(Buffer::new().format(n));
    text
}

#[tactic(auto, unfolding(crate::specs::Lines::holding_text))]
fn holding_text(h: Holding) -> ArrayString<41>
    ensures { result.bytes ≡ holding_text h }
{
    let mut text = ArrayString::new();
    match h {
        Holding::AnyError => text.push_str("any"),
        Holding::Below(f) => {
            text.push_str(&decimal(f.n));
            text.push_str("/");
            text.push_str(&decimal(f.d));
        }
    }
    text
}

#[tactic(auto, unfolding(crate::specs::Lines::verdict_text))]
fn verdict_text(v: Verdict) -> ArrayString<47>
    ensures { result.bytes ≡ verdict_text v }
{
    let mut text = ArrayString::new();
    match v {
        Verdict::Reached => text.push_str("reached"),
        Verdict::Holds(h) => {
            text.push_str("holds ");
            text.push_str(&holding_text(h));
        }
    }
    text
}

#[tactic(auto, unfolding(crate::specs::Lines::findings_text))]
fn findings_text(found: Result<Findings, u32>) -> ArrayString<131>
    ensures { result.bytes ≡ findings_text found }
{
    let mut text = ArrayString::new();
    match found {
        Ok(x) => {
            let Answer { verdict, zones } = x.answer;
            let Dropped { again, inside } = x.dropped;
            text.push_str(&verdict_text(verdict));
            text.push_str(" zones ");
            text.push_str(&decimal(u64::from(zones)));
            text.push_str(" again ");
            text.push_str(&decimal(again));
            text.push_str(" inside ");
            text.push_str(&decimal(inside));
        }
        Err(k) => {
            text.push_str("refused ");
            text.push_str(&decimal(u64::from(k)));
        }
    }
    text
}

// The whole line, its end included.
#[tactic(auto, unfolding(crate::specs::Lines::line_of))]
pub fn line_of(found: Result<Findings, u32>) -> ArrayString<132>
    ensures { result.bytes ≡ line_of found }
{
    let mut line = ArrayString::new();
    line.push_str(&findings_text(found));
    line.push_str("\n");
    line
}
