// A fact: a question and its answer.
use terms::Equation;

#[derive(Clone, Copy)]
pub struct Fact {
    pub question: Equation,
    pub answer: bool,
}
