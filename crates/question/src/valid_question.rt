//! A question with a span, a mark and a step that are proved to be in their ranges.

ghost use Rattle.std.specs.Prelude.{◌≡◌};
ghost use Rattle.question.specs.Asked.{AreInRange};

use crate::question::Question;
use std::marker::Model;

/// A borrowed question, of which the following values, if they are given, are proved to be in
/// range: the first minute and the end of the span in the years from 1 to 9999, the mark from
/// -10,000,000,000 to 10,000,000,000 millionths of the station's unit, and the step from 1 to
/// 44,640 minutes. In contracts its value is the question.
#[derive(Drop)]
pub struct ValidQuestion<'a> {
    question: &'a Question,
}

impl<'a> Model for ValidQuestion<'a> {
    ghost use Rattle.question.specs.declared.question.Question.{Question};

    ghost Value = { Question };

    ghost use Rattle.question.specs.Asked.{AreInRange};

    ghost view = { λ valid. valid.question.now };

    ghost invariant = { λ valid. AreInRange valid.question.now };
}

impl<'a> ValidQuestion<'a> {
    /// Returns `question` as a valid one. The caller proves that its span, mark and step are in the
    /// ranges of their keys, as they are in each question that
    /// [`read_question`](crate::read_question) returns.
    pub fn new(question: &'a Question) -> ValidQuestion<'a>
        requires { AreInRange question.now }
        ensures { result ≡ question.now }
    {
        ValidQuestion { question }
    }

    /// Borrows the question. Its span, mark and step are in the ranges of their keys.
    pub fn get(&self) -> &'a Question
        ensures exact { result.now ≡ self.now }
        ensures valid { AreInRange self.now }
    {
        self.question
    }
}
