//! One piece.

ghost use Rattle.std.specs.Prelude.{◌==◌, ◌||◌, ◌≡◌, ◌≤◌, ◌<◌, ◌+◌, ◌-◌, ◌^◌, IsTrue};
ghost use Rattle.pieces.specs.OneMore.{grown, grown_by, grown_down, grows, grows_down, one};
ghost use Rattle.pieces.specs.Pieces.{address_in};
ghost use Rattle.pieces.specs.Splitting.{back as back_of, front as front_of};

use std::marker::Model;

/// A stretch of addresses: `start`, `start + 1` and so on, or `start`, `start - 1` and so on where
/// it is backward.
#[derive(Clone, Copy, PartialEq, Eq)]
pub struct Piece {
    pub start: u32,
    pub len: u32,
    pub backward: bool,
}

impl Model for Piece {
    ghost use Rattle.pieces.specs.Pieces.{IsPiece, Piece as Told};

    ghost Value = { Told };

    ghost view = { λ p. record { start = p.start; len = p.len; backward = p.backward } };

    ghost invariant = { λ p.
        IsPiece (record { start = p.start; len = p.len; backward = p.backward }) };

    ghost inverse = { λ p. record { start = p.start; len = p.len; backward = p.backward } };
}

impl Piece {
    /// The address so many places into the piece.
    pub fn at(self, k: u32) -> u32
        requires { k < self.len }
        ensures { result ≡ address_in self k }
    {
        if self.backward {
            self.start - k
        } else {
            self.start + k
        }
    }

    /// The first `count` addresses.
    pub fn front(self, count: u32) -> Piece
        requires some { 1 ≤ count }
        requires within { count ≤ self.len }
        ensures { result ≡ front_of count self }
    {
        Piece {
            start: self.start,
            len: count,
            backward: self.backward,
        }
    }

    /// The addresses behind the first `count`.
    pub fn back(self, count: u32) -> Piece
        requires { count < self.len }
        ensures { result ≡ back_of count self }
    {
        Piece {
            start: self.at(count),
            len: self.len - count,
            backward: self.backward,
        }
    }

    /// The piece of one address.
    pub fn one(address: u32) -> Piece
        ensures { result ≡ one address }
    {
        Piece {
            start: address,
            len: 1,
            backward: false,
        }
    }

    /// Whether the piece goes on to this address.
    pub fn grows(self, address: u32) -> bool
        ensures value { result ≡ grows address self }
        ensures within { IsTrue result → self.start + self.len ≡ address }
    {
        if self.backward && self.len != 1 {
            return false;
        }
        self.start as u64 + self.len as u64 == address as u64
    }

    /// The piece with the address behind its last.
    pub fn grown(self) -> Piece
        requires short { self.len + 1 < 2 ^ 32 }
        requires within { self.start + self.len < 2 ^ 32 }
        ensures { result ≡ grown self }
    {
        Piece {
            start: self.start,
            len: self.len + 1,
            backward: false,
        }
    }

    /// The piece with so many addresses behind its last. Only a piece that goes on to them grows
    /// so.
    pub fn grown_by(self, count: u32) -> Piece
        requires short { self.len + count < 2 ^ 32 }
        requires within { self.start + self.len + count ≤ 2 ^ 32 }
        ensures { result ≡ grown_by count self }
    {
        Piece {
            start: self.start,
            len: self.len + count,
            backward: false,
        }
    }

    /// Whether the piece goes on backward to this address.
    pub fn grows_down(self, address: u32) -> bool
        ensures value { result ≡ grows_down address self }
        ensures within { IsTrue result → self.start + 1 ≡ address }
        ensures one_way { IsTrue result → IsTrue (self.backward || self.len == 1) }
    {
        if !self.backward && self.len != 1 {
            return false;
        }
        self.start as u64 + 1 == address as u64
    }

    /// The piece with the address above its first in front, backward.
    pub fn grown_down(self) -> Piece
        requires short { self.len + 1 < 2 ^ 32 }
        requires within { self.start + 1 < 2 ^ 32 }
        requires one_way { IsTrue (self.backward || self.len == 1) }
        ensures { result ≡ grown_down self }
    {
        Piece {
            start: self.start + 1,
            len: self.len + 1,
            backward: true,
        }
    }

    /// How many addresses it has.
    pub fn len(self) -> u32
        ensures value { result ≡ self.len }
        ensures some { 1 ≤ self.len }
    {
        self.len
    }
}
