//! How a fiber waits for a semaphore, a mutex or a resource.

ghost use Rattle.std.specs.Prelude.{◌≡◌, ◌<◌, if◌then◌else◌, true, None};
ghost use Rattle.eio_value.specs.declared.call.Answer.TheVariants as answer;
ghost use Rattle.eio_value.specs.declared.value.Value.TheVariants as value;
ghost use Rattle.spec_parts.specs.Data.{Data};
ghost use Rattle.spec_parts.specs.Row.{otherwise, Waits, Takers};
ghost use Rattle.wait_list.specs.Lists.{core_of};

use eio_value::{Answer, Value, Waiter};
use wait_list::{Queued, WaitList};

/// The fiber waits, behind all others; or, where its context is cancelled, it is answered `Off`, and nothing has changed.
pub(crate) fn wait(waiters: &mut WaitList, who: Waiter, off: bool) -> Answer
    requires cell { who.cell < waiters.old.cells }
    ensures waits { (values : Data) → otherwise (core_of values waiters.old).row who off (Waits values Takers value.Unit 0) ≡ record { row = (core_of values waiters.new).row; answer = result; sent = None } }
    ensures answers { result ≡ (if off then answer.Off else answer.Waits) }
    ensures off { result ≡ answer.Off → (off ≡ true) × (waiters.new ≡ waiters.old) }
    ensures cells { waiters.new.cells ≡ waiters.old.cells }
{
    let queued = Queued {
        who,
        item: Value::Unit,
        number: 0,
    };
    waiters.wait(queued, off)
}
