// A picture that was read and found right: its bytes with their header. Whoever has one need not ask again.
#![tactic(auto)]

ghost use Rattle.std.specs.Prelude.{◌≡◌, ◌≤◌, MatchResult};
ghost use Rattle.picture.specs.Layout.{state_number};
ghost use Rattle.picture.specs.Picture.{header_of, picture_of, slot_of, endpoint_of};
ghost use Rattle.picture.specs.Faults.{picture_fault};
ghost use Rattle.picture.specs.Refusals.{refusal_number};
ghost use Rattle.picture.specs.Inner.{Read};

use crate::{Header, Refusal, State};
use std::marker::Model;

// The bytes of an accepted picture, with its header.
#[derive(Drop)]
pub struct Picture<'a> {
    bytes: &'a [u8],
    header: Header,
}

// It is seen as its bytes.
impl<'a> Model for Picture<'a> {
    ghost use Rattle.std.specs.Prelude.{List, ℕ};
    ghost use Rattle.picture.specs.Inner.{Read};

    ghost Value = { List ℕ };

    ghost view = { λ p. p.bytes.now };

    ghost invariant = { λ p. Read p.bytes.now p.header };
}

impl<'a> Picture<'a> {
    // Reads a picture of any bytes, or finds the first fault.
    pub fn read(bytes: &'a [u8]) -> Result<Picture<'a>, Refusal>
        ensures { MatchResult result (λ p. (p ≡ bytes.now) × (picture_fault bytes.now ≡ 0)) (λ e. refusal_number e ≡ picture_fault bytes.now) }
    {
        let header = crate::header_of(bytes);
        crate::judge(bytes, header)?;
        Ok(Picture { bytes, header })
    }

    // The picture of bytes that were read before, with their header.
    pub fn of(bytes: &'a [u8], header: Header) -> Picture<'a>
        requires { Read bytes.now header }
        ensures { result ≡ bytes.now }
    {
        Picture { bytes, header }
    }
}

// Kept: the functions over bytes and header are public as before, and stand beside these methods.
impl Picture<'_> {
    // The header's numbers.
    pub fn header(&self) -> Header
        ensures { Read self.now result }
    {
        self.header
    }

    // Its bytes. A loop over many fields binds these and the header once and then calls the functions over both: what it writes could be what a
    // Picture lies in, for all that the compiler knows, which would read both anew for each field.
    pub fn bytes(&self) -> &[u8]
        ensures { result.now ≡ self.now }
    {
        self.bytes
    }

    // The state of slot v.
    pub fn slot_state(&self, v: usize) -> State
        requires { (1 ≤ v) × (v ≤ (header_of self.now).slots) }
        ensures { state_number result ≡ (slot_of (picture_of self.now) v).state }
    {
        crate::state_of(self.bytes, self.header, v)
    }

    // Whether slot v is near.
    pub fn is_near(&self, v: usize) -> bool
        requires { (1 ≤ v) × (v ≤ (header_of self.now).slots) }
        ensures { result ≡ (slot_of (picture_of self.now) v).near }
    {
        crate::slot_near(self.bytes, self.header, v)
    }

    // The weight of endpoint c.
    pub fn endpoint_weight(&self, c: usize) -> usize
        requires { (1 ≤ c) × (c ≤ (header_of self.now).endpoints) }
        ensures { result ≡ (endpoint_of (picture_of self.now) c).weight }
    {
        crate::endpoint_weight(self.bytes, self.header, c)
    }

    // Whether endpoint c is protected.
    pub fn is_protected(&self, c: usize) -> bool
        requires { (1 ≤ c) × (c ≤ (header_of self.now).endpoints) }
        ensures { result ≡ (endpoint_of (picture_of self.now) c).protected }
    {
        crate::endpoint_protected(self.bytes, self.header, c)
    }
}
