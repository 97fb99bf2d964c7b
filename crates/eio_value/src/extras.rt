//! What a mocked domain asks beside the shared objects: its scripted flows and directories.

ghost use Rattle.std.specs.Prelude.{◌≡◌, ℕ, ◌+◌, ◌-◌, ◌^◌, ◌<◌, ◌≤◌, Bool, true, List, length, Option, OnOk, IfOk};
ghost use Rattle.eio_value.specs.declared.call.Answered.{Answered};
ghost use Rattle.eio_value.specs.declared.call.Call.{Call};
ghost use Rattle.eio_value.specs.declared.call.Struck.{Struck};
ghost use Rattle.eio_value.specs.declared.message.Message.{Message};
ghost use Rattle.eio_value.specs.declared.message.Waiter.{Waiter};
ghost use Rattle.eio_value.specs.declared.mock_call.Extra.{Extra};
ghost use Rattle.eio_value.specs.declared.mock_call.MockCall.{MockCall};
ghost use Rattle.eio_value.specs.Things.{Things, FitsMock, things_behind, OpensNew, MayCome, FitsExtra, Grows, LeavesOutside};
ghost use Rattle.eio_value.specs.Waits.{bounds_of};

use crate::{Extra, MockCall, NoMemory, Objects, Texts};

/// The shared objects of a script, and for a mocked domain its outside too.
pub trait Extras: Objects {
    /// Whether there is a mocked outside. Its failures aren't told.
    ghost is_mocked: { Self → Bool };

    /// How many calls on the outside were made.
    ghost asked: { Self → ℕ };

    /// What stands under each number of a flow, a directory, a reader, a writer or a capability.
    ghost things: { Self → Things };

    /// What a call on the outside does: before, the table of texts, which call, with the number of the raise that it may make,
    /// what it is answered, the table after, after.
    ghost extras: { Self → List (List ℕ) → MockCall → ℕ → Extra → List (List ℕ) → Self → Type 0 };

    /// What learning a table does: before, the table, after.
    ghost learns: { Self → List (List ℕ) → Self → Type 0 };

    /// Whether there is a mocked outside.
    fn mocked(&self) -> bool
        ensures mocked { result ≡ is_mocked self.now };

    /// A call on the mocked outside; `serial` is the number of the raise that it may make. After `NoMemory` nothing is said of
    /// the outside.
    fn extra(&mut self, texts: &mut Texts, call: MockCall, serial: u64) -> Result<Extra, NoMemory>
        requires mocked { is_mocked self.old ≡ true }
        requires few { asked self.old < 2 ^ 31 }
        requires table { length texts.old ≡ Self.texts self.old }
        requires small { length texts.old < 2 ^ 32 - 8 }
        requires fits { FitsMock (bounds_of (Self.terms self.old) (length texts.old)) (things self.old) call }
        ensures does { IfOk result (λ answer. extras self.old texts.old call serial answer texts.new self.new) }
        ensures fits { IfOk result (λ answer. FitsExtra (bounds_of (Self.terms self.old) (length texts.new)) answer) }
        ensures comes { IfOk result (MayCome call) }
        ensures opens { IfOk result (λ answer. OpensNew call answer (things self.old)) }
        ensures things { IfOk result (λ answer. (number : ℕ) → things self.new number ≡ things_behind call answer (things self.old) number) }
        ensures grows { OnOk result (Grows 4 texts.old texts.new) }
        ensures table { OnOk result (Self.texts self.new ≡ length texts.new) }
        ensures asked { OnOk result (asked self.new ≡ asked self.old + 1) }
        ensures mocked { OnOk result (is_mocked self.new ≡ is_mocked self.old) }
        ensures same { OnOk result (Self.terms self.new ≡ Self.terms self.old) }
        ensures seen { OnOk result (Self.seen self.new ≡ Self.seen self.old) }
        ensures opened { OnOk result ((other : Waiter) → Self.is_open self.new other ≡ Self.is_open self.old other) }
        ensures gives { OnOk result ((executor number : ℕ) → Self.jobs self.new executor number ≡ Self.jobs self.old executor number) };

    /// Tells the table of texts, which a fiber's own statements may have extended.
    fn learn(&mut self, texts: &Texts)
        requires mocked { is_mocked self.old ≡ true }
        requires more { Self.texts self.old ≤ length texts.now }
        ensures does { learns self.old texts.now self.new }
        ensures table { Self.texts self.new ≡ length texts.now }
        ensures asked { asked self.new ≡ asked self.old }
        ensures mocked { is_mocked self.new ≡ is_mocked self.old }
        ensures things { (number : ℕ) → things self.new number ≡ things self.old number }
        ensures same { Self.terms self.new ≡ Self.terms self.old }
        ensures seen { Self.seen self.new ≡ Self.seen self.old }
        ensures opened { (other : Waiter) → Self.is_open self.new other ≡ Self.is_open self.old other }
        ensures gives { (executor number : ℕ) → Self.jobs self.new executor number ≡ Self.jobs self.old executor number };

    ghost calls_leave: { (a b : Self) (who : Waiter) (off : Bool) (stamp serial : ℕ) (call : Call) (answered : Answered) → Self.calls a who off stamp serial call answered b → LeavesOutside (is_mocked a) (asked a) (things a) (is_mocked b) (asked b) (things b) };

    ghost strikes_leave: { (a b : Self) (who : Waiter) (stamp : ℕ) (struck : Struck) → Self.strikes a who stamp struck b → LeavesOutside (is_mocked a) (asked a) (things a) (is_mocked b) (asked b) (things b) };

    ghost receives_leave: { (a b : Self) (message : Option Message) → Self.receives a message b → LeavesOutside (is_mocked a) (asked a) (things a) (is_mocked b) (asked b) (things b) };
}
