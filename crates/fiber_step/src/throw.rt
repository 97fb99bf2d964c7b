//! What an exception comes to: the handler of a `try`, the call of an end, or the fiber's end.

ghost use Rattle.std.specs.Prelude.{◌≡◌, List, ℕ, IfOk, OnErr};
ghost use Rattle.eio_value.specs.Exceptions.{bound_text, HasTextsOfRaised};
ghost use Rattle.eio_value.specs.Table.{intern};

use crate::ask::Ask;
use crate::fiber::Fiber;
use crate::mark::Mark;
use crate::progress::Progress;
use eio_value::{Member, NoMemory, Outcome, Plain, Raised, TextId, Texts, Value, show_raised};
use std::alloc::Global;

/// So many texts have numbers.
const MOST_TEXTS: usize = 4_294_967_295;

/// The bytes of the text that a `try` binds.
///
/// # Errors
/// [`NoMemory`] where memory runs out.
fn bound_bytes(alloc: Global, texts: &Texts, raised: &Raised) -> Result<Vec<u8>, NoMemory>
    requires { HasTextsOfRaised texts.now raised.now }
    ensures { IfOk result (λ bytes. bytes.items ≡ bound_text texts.now raised.now) }
{
    let mut bytes = Vec::new(alloc);
    match raised {
        Raised::Many(members) => {
            let Some(first) = members.as_slice().first() else {
                unreachable!()
            };
            bytes.extend_from_slice(b"Multiple [")?;
            show_raised(texts, &Raised::One(*first), &mut bytes)?;
            bytes.extend_from_slice(b"; ...]")?;
        }
        _ => show_raised(texts, raised, &mut bytes)?,
    }
    Ok(bytes)
}

/// The number of the text that a `try` binds.
///
/// # Errors
/// [`NoMemory`] where memory runs out, or the numbers of texts; then the table is as it was.
fn bound_id(alloc: Global, texts: &mut Texts, raised: &Raised) -> Result<TextId, NoMemory>
    requires { HasTextsOfRaised texts.old raised.now }
    ensures ok { IfOk result (λ id. record { id = id; texts = texts.new } ≡ intern texts.old (bound_text texts.old raised.now)) }
    ensures err { OnErr result (texts.new ≡ texts.old) }
{
    let bytes = bound_bytes(alloc, texts, raised)?;
    if texts.len() >= MOST_TEXTS {
        return Err(NoMemory);
    }
    texts.intern(bytes.as_slice())
}

impl Fiber {
    ghost use Rattle.std.specs.Prelude.{true, false, OnOk};
    ghost use Rattle.eio_value.specs.Exceptions.{HasTextsOfPlain};
    ghost use Rattle.eio_value.specs.declared.raised.Outcome.TheVariants as outcome;
    ghost use Rattle.script_forms.specs.declared.node.Node.{Node as Begun};
    ghost use Rattle.fiber_step.specs.Standing.{is_end};
    ghost use Rattle.fiber_step.specs.Throwing.{shared_by, IsGrown, IsTurnWith};
    ghost use Rattle.fiber_step.specs.Turning.{with_mark, next_call, next_behind};
    ghost use Rattle.fiber_step.specs.Unwinding.{stops};
    ghost use Rattle.fiber_step.specs.declared.progress.Progress.TheVariants as progress;

    /// What an exception comes to.
    ///
    /// # Errors
    /// [`NoMemory`] where memory runs out.
    pub(crate) fn throw(&mut self, raised: &Raised, texts: &mut Texts) -> Result<Progress, NoMemory>
        requires { HasTextsOfRaised texts.old raised.now }
        ensures grown { IsGrown texts.old texts.new }
        ensures turn { IfOk result (λ it. (nodes : List Begun) (serial : ℕ) → IsTurnWith nodes (next_call nodes (outcome.Err raised.now)) self.old (shared_by texts.old serial) it self.new (shared_by texts.new serial)) }
    {
        let came = Outcome::Err(*raised);
        let Some(mark) = self.unwind() else {
            return Ok(Progress::Calls(Ask::End(came)));
        };
        match mark.end(&came) {
            Some(end) => Ok(self.ended(end)),
            None => self.caught(mark, raised, texts),
        }
    }

    /// The second block of a `try`, which names the text of the exception.
    fn caught(
        &mut self,
        mark: Mark,
        raised: &Raised,
        texts: &mut Texts,
    ) -> Result<Progress, NoMemory>
        requires stops { stops mark ≡ true }
        requires end { is_end mark ≡ false }
        requires texts { HasTextsOfRaised texts.old raised.now }
        ensures grown { IsGrown texts.old texts.new }
        ensures turn { IfOk result (λ it. (nodes : List Begun) (serial : ℕ) → IsTurnWith nodes (next_call nodes (outcome.Err raised.now)) (with_mark mark self.old) (shared_by texts.old serial) it self.new (shared_by texts.new serial)) }
    {
        let Mark::Try { handler, keep } = mark else {
            unreachable!()
        };
        let text = bound_id(self.alloc(), texts, raised)?;
        self.cut(keep);
        self.name(Value::Text(text))?;
        self.go_into(Mark::Cut { keep }, handler)?;
        Ok(Progress::GoesOn(Value::Unit))
    }

    /// A new raise, with the next number.
    ///
    /// # Errors
    /// [`NoMemory`] where memory runs out, or the numbers of raises.
    pub(crate) fn raise(
        &mut self,
        what: Plain,
        texts: &mut Texts,
        serial: &mut u64,
    ) -> Result<Progress, NoMemory>
        requires { HasTextsOfPlain texts.old what }
        ensures grown { IsGrown texts.old texts.new }
        ensures turn { IfOk result (λ it. (nodes : List Begun) → IsTurnWith nodes (next_behind nodes (progress.Raises what)) self.old (shared_by texts.old serial.old) it self.new (shared_by texts.new serial.new)) }
    {
        let member = Member {
            serial: *serial,
            what,
        };
        *serial = serial.checked_add(1).ok_or(NoMemory)?;
        self.throw(&Raised::One(member), texts)
    }
}
