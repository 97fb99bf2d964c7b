//! The objects of one mocked domain.
//!
//! No kind of object is built yet: a script that is run declares nothing, so that nothing is called, nobody waits on an object, and no message comes.
//! The theorems are the clauses of the two traits at [`Local`], whose relations are those of specs/Objects. A kind that is built
//! is a variant of [`Declared`].

ghost use Rattle.std.specs.Prelude.{◌≡◌, false, true, []};
ghost use Rattle.mock_backend.specs.Objects.{terms_of, texts_in, is_open_in, thing_in, outside_stays, AreForMocked, Calls, Strikes, Asks, Receives, Learns};

use eio_value::{
    Answered, Call, Extra, Extras, Message, MockCall, NoMemory, Objects, Struck, Texts, Waiter,
};
use std::alloc::Global;

/// What a script declares: an object, a flow or a directory.
#[derive(Clone, Copy)]
pub enum Declared {}

/// The objects of a mocked domain, its flows and its directories.
#[derive(Drop)]
pub struct Local {
    /// In order of declaration.
    declared: Vec<Declared>,
    /// How many texts there are.
    texts: usize,
}

impl Local {
    /// The objects of a script that declares nothing, with so many texts: those with which [`Domain::turn`](domain_core::Domain::turn)
    /// may be called at the mocked domain 0.
    pub fn make(alloc: Global, texts: usize) -> Local
        ensures declares { (terms_of result).kinds ≡ [] }
        ensures texts { texts_in result ≡ texts }
        ensures fits { AreForMocked result }
    {
        Local {
            declared: Vec::new(alloc),
            texts,
        }
    }
}

impl Objects for Local {
    ghost calls = { Calls };

    ghost strikes = { Strikes };

    ghost receives = { Receives };

    ghost terms = { terms_of };

    ghost texts = { texts_in };

    ghost seen = { λ _. 0 };

    ghost is_open = { is_open_in };

    ghost jobs = { λ _ _ _. false };

    fn call(
        &mut self,
        _who: Waiter,
        _off: bool,
        _stamp: u64,
        _serial: u64,
        _call: Call,
    ) -> Answered {
        unreachable!()
    }

    fn strike(&mut self, _who: Waiter, _stamp: u64) -> Struck {
        unreachable!()
    }

    fn receive(&mut self) -> Option<Message> {
        None
    }
}

impl Extras for Local {
    ghost is_mocked = { λ _. true };

    ghost asked = { λ _. 0 };

    ghost things = { thing_in };

    ghost extras = { Asks };

    ghost learns = { Learns };

    fn mocked(&self) -> bool {
        true
    }

    fn extra(
        &mut self,
        _texts: &mut Texts,
        _call: MockCall,
        _serial: u64,
    ) -> Result<Extra, NoMemory> {
        unreachable!()
    }

    fn learn(&mut self, texts: &Texts) {
        self.texts = texts.len();
    }

    ghost calls_leave = { λ a b who off stamp serial call answered never. absurd never };

    ghost strikes_leave = { λ a b who stamp struck never. absurd never };

    ghost receives_leave = { λ a b message found. outside_stays a b found.1 };
}
