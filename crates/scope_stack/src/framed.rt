//! A stack as what a race of workers begins on.
use crate::stack::Stack;
use race_model::Framed;

impl Framed for Stack {
    ghost base = { λ s. record { trees = s.trees; frames = s.frames } };
}
