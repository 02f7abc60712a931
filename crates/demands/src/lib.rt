// The request's demands: theorems over the definitions that the contracts use (specs/), and a function that runs a list of calls under them.
#![tactic(auto)]

ghost use Rattle.std.specs.Prelude.{◌≡◌, ◌*◌, ◌+◌, ◌≤◌, length};
ghost use Rattle.le.specs.Le.{splice};
ghost use Rattle.words.specs.Words.{word_bytes};
ghost use Rattle.demands.specs.Running.{ANSWER_BYTES, call_at, calls_in, answer_words, RunsCall, Runs};

use arch::VA;
use patch::Progress;
use refusal::Refusal;

// The bytes of a call, and of its answer.
const CALL_BYTES: usize = 16;

// Where its position stands; the number stands first.
const POSITION_AT: usize = 8;

const ANSWER_BYTES: usize = 24;

fn write_answer(answer: Result<Progress, Refusal>, answers: &mut [u8], at: usize)
    ensures { answers.new ≡ splice answers.old at (word_bytes (answer_words answer)) }
{
    match answer {
        Ok(p) => {
            let ws = [0, p.position, u64::from(p.done)];
            words::put(answers, at, &ws);
        }
        Err(r) => {
            let ws = [r.number(), 0, 0];
            words::put(answers, at, &ws);
        }
    }
}

fn run_call(
    base: VA,
    image: &mut [u8],
    marks: &[u8],
    fixes: &[u8],
    calls: &[u8],
    answers: &mut [u8],
    k: usize,
)
    requires { ANSWER_BYTES * k + ANSWER_BYTES ≤ length answers.old }
    ensures { RunsCall base.0 marks.now fixes.now (call_at calls.now k) (ANSWER_BYTES * k) image.old image.new answers.old answers.new }
{
    let number = le::u64_at(calls, CALL_BYTES * k);
    let position = le::u64_at(calls, CALL_BYTES * k + POSITION_AT);
    let answer = patch::patch(base, image, marks, fixes, number, position);
    write_answer(answer, answers, ANSWER_BYTES * k);
}

// Patches by each call in turn, refused ones among them, and writes each answer. A call is two words: how many fixups, and from which position; an
// answer three: 0, the new position and whether all are done, or the refusal's number. Calls without room for their answer are not made.
pub fn run(base: VA, image: &mut [u8], marks: &[u8], fixes: &[u8], calls: &[u8], answers: &mut [u8])
    ensures { Runs base.0 marks.now fixes.now (calls_in calls.now (length answers.old)) image.old image.new answers.old answers.new }
{
    let n = (calls.len() / CALL_BYTES).min(answers.len() / ANSWER_BYTES);
    for k in 0..n {
        run_call(base, image, marks, fixes, calls, answers, k);
    }
}
