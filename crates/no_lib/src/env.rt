ghost use Rattle.std.specs.Prelude.{◌≡◌, [], ◌++◌, ◌∷◌, MatchOption, OnErr, OnOk};

use no_ir::NoMemory;
use std::alloc::Global;
use std::marker::Model;

/// The input of a program that came and wasn't read yet, which contracts see as a list of bytes.
#[derive(Debug, Drop)]
pub struct Input {
    bytes: Vec<u8>,
    /// How many of them were read.
    at: usize,
}

impl Model for Input {
    ghost use Rattle.std.specs.Prelude.{ℕ, ◌≤◌, List, drop, length};

    ghost Value = { List ℕ };

    ghost view = { λ i. drop i.at i.bytes.items };

    ghost invariant = { λ i. i.at ≤ length i.bytes.items };
}

impl Input {
    /// No input.
    pub fn new(alloc: Global) -> Input
        ensures { result ≡ [] }
    {
        Input {
            bytes: Vec::new(alloc),
            at: 0,
        }
    }

    /// Reads the next byte, where there is one.
    #[tactic(auto, using(crate::proofs::Inputs::next_is, crate::proofs::Inputs::none_left))]
    pub fn take(&mut self) -> Option<u8>
        ensures { MatchOption result ((self.old ≡ []) × (self.new ≡ [])) (λ byte. self.old ≡ byte ∷ self.new) }
    {
        if self.at == self.bytes.len() {
            return None;
        }
        let byte = self.bytes[self.at];
        self.at += 1;
        Some(byte)
    }

    /// Puts bytes behind those that are there.
    #[tactic(auto, using(crate::proofs::Inputs::fed))]
    pub fn feed(&mut self, piece: &[u8]) -> Result<(), NoMemory>
        ensures fed { OnOk result (self.new ≡ self.old ++ piece.now) }
        ensures same { OnErr result (self.new ≡ self.old) }
    {
        self.let_go();
        self.bytes.extend_from_slice(piece)?;
        Ok(())
    }

    /// Keeps no bytes that were read, once all were.
    #[tactic(auto, using(crate::proofs::Inputs::none_left))]
    fn let_go(&mut self)
        ensures { self.new ≡ self.old }
    {
        if self.at == self.bytes.len() {
            self.bytes.clear();
            self.at = 0;
        }
    }
}

/// What a program reads and writes.
#[derive(Debug, Drop)]
pub struct Env {
    pub input: Input,
    /// Whether nothing comes behind the input that is there.
    pub ended: bool,
    pub output: Vec<u8>,
}
