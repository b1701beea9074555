//! What stands before an operand that is being read.
ghost use Rattle.std.specs.Prelude.{◌≡◌, ℕ, ◌<◌, [], ◌∷◌, length, MatchOption, IfSome, OnOk, IsTrue, ◌↔◌};
ghost use Rattle.cx_condition.specs.declared.value.Operand.{Operand as operand_type};
ghost use Rattle.cx_condition.specs.Shapes.Machine.{applied, binds, made, newest, released, settled};

use crate::arithmetic::{binary, choice, unary};
use crate::operator::{Operator, Unary};
use crate::value::Operand;
use cx_base::NoMemory;
use std::alloc::Global;
use std::marker::Model;

/// What waits for an operand.
#[derive(Clone, Copy)]
pub enum Frame {
    /// An operator on it alone.
    Unary(Unary),
    /// An operator on it and the operand before.
    Binary(Operator, Operand),
    /// `(`
    Open,
    /// A condition and its `?`.
    Question(Operand),
    /// A condition, its `?`, what stands behind that, and its `:`.
    Colon(Operand, Operand),
}

impl Frame {
    /// How loosely it binds.
    #[tactic(auto, unfolding(crate::specs::Shapes::Machine::binds))]
    fn binds(self) -> u8
        ensures { result ≡ binds self }
    {
        match self {
            Frame::Unary(_) => 1,
            Frame::Binary(operator, _) => operator.level(),
            Frame::Open | Frame::Question(_) => 13,
            Frame::Colon(_, _) => 12,
        }
    }

    /// What it makes of its operand.
    #[tactic(auto, unfolding(crate::specs::Shapes::Machine::applied))]
    fn applied(self, operand: Operand) -> Operand
        ensures { result ≡ applied self operand }
    {
        match self {
            Frame::Unary(operator) => unary(operator, operand),
            Frame::Binary(operator, left) => binary(operator, left, operand),
            Frame::Open | Frame::Question(_) => operand,
            Frame::Colon(condition, first) => choice(condition, first, operand),
        }
    }
}

/// The frames that wait, which contracts see as a list, the newest first.
#[derive(Drop)]
pub struct Frames {
    // The newest last.
    frames: Vec<Frame>,
}

impl Model for Frames {
    ghost use Rattle.std.specs.Prelude.{List, reverse};
    ghost use Rattle.cx_condition.specs.declared.frame.Frame.{Frame as frame};

    ghost Value = { List frame };

    ghost view = { λ l. reverse l.frames.items };
}

impl Frames {
    pub fn new(alloc: Global) -> Frames
        ensures { result ≡ [] }
    {
        Frames {
            frames: Vec::new(alloc),
        }
    }

    pub fn is_empty(&self) -> bool
        ensures { IsTrue result ↔ (self.now ≡ []) }
    {
        self.frames.is_empty()
    }

    #[tactic(auto, using(crate::proofs::FrameLaws::pushed))]
    pub fn push(&mut self, frame: Frame) -> Result<(), NoMemory>
        ensures { OnOk result (self.new ≡ frame ∷ self.old) }
    {
        self.frames.push(frame)?;
        Ok(())
    }

    /// Takes the newest frame away.
    pub fn pop(&mut self) -> Option<Frame>
        ensures { MatchOption result ((self.old ≡ []) × (self.new ≡ [])) (λ f. self.old
            ≡ f ∷ self.new) }
    {
        self.frames.pop()
    }

    fn newest(&self) -> Option<Frame>
        ensures { result ≡ newest self.now }
    {
        self.frames.last().copied()
    }

    /// Takes the newest frame away if it binds no more loosely than this.
    pub fn pop_within(&mut self, reach: u8) -> Option<Frame>
        ensures frames { (v : operand_type) → settled reach self.old v
            ≡ released result reach self.new v }
        ensures shorter { IfSome result (λ _. length self.new < length self.old) }
    {
        let frame = self.newest()?;
        if frame.binds() > reach {
            return None;
        }
        self.pop()
    }

    /// Gives an operand to the frames that bind no more loosely than this.
    pub fn settle(&mut self, reach: u8, operand: Operand) -> Operand
        ensures { settled reach self.old operand ≡ made self.new result }
    {
        let mut operand = operand;
        while let Some(frame) = self.pop_within(reach) {
            operand = frame.applied(operand);
        }
        operand
    }
}
