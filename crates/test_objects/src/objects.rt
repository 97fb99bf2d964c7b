//! Objects of any kind, as they are declared.

ghost use Rattle.std.specs.Prelude.{ℕ};
ghost use Rattle.object_core.specs.Calling.{IsCountable, IsWeighty};
ghost use Rattle.object_core.specs.Opening.{opened};

use crate::waits::{all_alive, name_of, waiter};
use eio_value::{Call, NoMemory, Value};
use object_core::{Declared, ObjectCore};
use std::alloc::Global;
use std::test::Fail;

/// What the first call on an object that is declared so is answered.
fn answered(alloc: Global, declared: Declared, call: Call) -> Result<&'static str, NoMemory>
    requires weighty { IsWeighty call }
    requires countable { (cells : ℕ) → IsCountable call (opened cells declared).values }
{
    let mut object = ObjectCore::new(alloc, declared, 4)?;
    let answer = object.call(&mut all_alive(alloc), waiter(0, 10), false, 7, call);
    Ok(name_of(&answer))
}

#[test]
fn each_kind_answers_its_own_calls(rt: HostRuntime) -> Result<(), Fail> {
    let alloc = rt.alloc();
    assert_eq!(rt;
        answered(alloc, Declared::Stream(1), Call::Take(0))?,
        "waits"
    );
    assert_eq!(rt;
        answered(alloc, Declared::Stream(1), Call::Add(0, Value::Int(3)))?,
        "done"
    );
    assert_eq!(rt;
        answered(alloc, Declared::Promise, Call::Await(0))?,
        "waits"
    );
    assert_eq!(rt;
        answered(alloc, Declared::Semaphore(1), Call::Acquire(0))?,
        "done"
    );
    assert_eq!(rt;
        answered(alloc, Declared::Semaphore(0), Call::Acquire(0))?,
        "waits"
    );
    assert_eq!(rt; answered(alloc, Declared::Mutex, Call::Lock(0))?, "done");
    assert_eq!(rt; answered(alloc, Declared::Pool(0), Call::Use(0))?, "waits");
    assert_eq!(rt;
        answered(alloc, Declared::Executor(&[1]), Call::NextStart(0))?,
        "nothing"
    );
    Ok(())
}

#[test]
fn a_call_of_another_kind_does_nothing(rt: HostRuntime) -> Result<(), Fail> {
    let alloc = rt.alloc();
    assert_eq!(rt;
        answered(alloc, Declared::Stream(1), Call::Lock(0))?,
        "nothing"
    );
    assert_eq!(rt; answered(alloc, Declared::Mutex, Call::Take(0))?, "nothing");
    Ok(())
}
