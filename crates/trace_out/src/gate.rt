//! What a worker asks at set points of its run, so that a test can hold it there.
use std::sync::Wait;

/// What a worker asks before each turn and while it holds an object. It promises nothing.
pub trait Gate: Sync {
    /// Asked before each turn of a domain, idle ones too. `turn` counts from 1, and stays at the greatest
    /// number once it is there.
    fn before<R: Wait + Sync>(&self, rt: &R, domain: u8, turn: u32);

    /// Asked while a domain holds the turn of an object, before it calls the object's core.
    fn inside<R: Wait + Sync>(&self, rt: &R, domain: u8, object: u32);
}

/// The gate that lets everyone pass.
#[derive(Clone, Copy)]
pub struct OpenGate;

impl Gate for OpenGate {
    fn before<R: Wait + Sync>(&self, _rt: &R, _domain: u8, _turn: u32) {}

    fn inside<R: Wait + Sync>(&self, _rt: &R, _domain: u8, _object: u32) {}
}
