//! A reader over memory for tests: small pieces, and one failure.

ghost use Rattle.std.specs.Prelude.{◌≡◌, ◌<◌, ◌≤◌, ◌+◌, ◌-◌, None, Some, [], length, take, drop, min, IfOk, OnErr};
ghost use Rattle.ti_lines.specs.{Drip.{Dripping, given_by, nearer}, Reader.{AtEnd, Gave, Rose, last_count}};

use crate::readers::{ReadFault, Reader};
use std::marker::Model;

/// A reader over memory that gives few bytes at a time and may fail once. It allocates nothing.
#[derive(Drop)]
pub struct Drip<'a> {
    rest: &'a [u8],
    step: usize,
    fail_in: Option<usize>,
    failures: u128,
}

impl<'a> Model for Drip<'a> {
    ghost use Rattle.std.specs.Prelude.{◌<◌};
    ghost use Rattle.ti_lines.specs.Drip.{Dripping};

    ghost Value = { Dripping };

    ghost view = { λ d. record { bytes = d.rest.now; step = d.step; fail_in = d.fail_in; failures = d.failures } };

    ghost invariant = { λ d. 0 < d.step };
}

impl<'a> Drip<'a> {
    /// A reader of `bytes`, at most `step` at a time; `step` must be at least 1. With `fail_at` it
    /// fails once, in the call after that number of bytes was given.
    pub fn new(bytes: &'a [u8], step: usize, fail_at: Option<usize>) -> Drip<'a>
        requires { 0 < step }
        ensures { result ≡ record { bytes = bytes.now; step = step; fail_in = fail_at; failures = 0 } }
    {
        Drip {
            rest: bytes,
            step,
            fail_in: fail_at,
            failures: 0,
        }
    }
}

impl<'a> Reader for Drip<'a> {
    ghost use Rattle.ti_lines.specs.Drip.{Dripping};

    ghost left = { λ d all. d.bytes ≡ all };

    ghost failures = { λ d. d.failures };

    /// Gives as many of the remaining bytes as there is room for, but at most `step`.
    ///
    /// # Errors
    /// `ReadFault`, once, when the bytes before the failure have been given.
    fn take(&mut self, into: &mut [u8]) -> Result<usize, ReadFault>
        requires { 0 < length into.old }
        ensures within { IfOk result (λ n. n ≤ length into.old) }
        ensures gave { IfOk result (λ n.
            Gave (λ d all. d.bytes ≡ all) (λ d. d.failures) self.old self.new (take n into.new)) }
        ensures end { IfOk result (λ n. n ≡ 0 → AtEnd (λ (d : Dripping) all. d.bytes ≡ all) self.new) }
        ensures none { OnErr result (Gave (λ d all. d.bytes ≡ all) (λ d. d.failures) self.old self.new []) }
        ensures failed { OnErr result (Rose self.old.failures self.new.failures) }
        ensures count { IfOk result (λ n.
            n ≡ given_by (length into.old) self.old.step (length self.old.bytes) self.old.fail_in) }
        ensures next { IfOk result (λ n.
            self.new ≡ record self.old { bytes = drop n self.old.bytes; fail_in = nearer self.old.fail_in n }) }
        ensures fails { OnErr result (self.old.fail_in ≡ Some 0) }
        ensures again { OnErr result
            (self.new ≡ record self.old { fail_in = None; failures = min (self.old.failures + 1) last_count }) }
    {
        if self.fail_in == Some(0) {
            self.fail_in = None;
            self.failures = self.failures.saturating_add(1);
            return Err(ReadFault);
        }
        let count = count_of(into.len(), self.step, self.rest.len(), self.fail_in);
        into[..count].copy_from_slice(&self.rest[..count]);
        self.rest = &self.rest[count..];
        self.fail_in = lowered(self.fail_in, count);
        Ok(count)
    }
}

/// The number of bytes before the failure, once `count` more are given.
fn lowered(fail_in: Option<usize>, count: usize) -> Option<usize>
    ensures { result ≡ nearer fail_in count }
{
    match fail_in {
        None => None,
        Some(fail_in) => Some(fail_in.saturating_sub(count)),
    }
}

/// The number of bytes given if `wanted` are wanted and `rest` are left.
fn count_of(wanted: usize, step: usize, rest: usize, fail_in: Option<usize>) -> usize
    ensures value { result ≡ given_by wanted step rest fail_in }
    ensures wanted { result ≤ wanted }
    ensures rest { result ≤ rest }
{
    let count = wanted.min(step).min(rest);
    match fail_in {
        None => count,
        Some(fail_in) => count.min(fail_in),
    }
}
