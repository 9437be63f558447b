//! What a word of a formula sheet is: an operator, a keyword or a name.
ghost use Rattle.std.specs.Prelude.{◌≡◌};
ghost use Rattle.sheet.specs.Tokens.{shown, token_of, operator_of, keyword_of, reserved};

use crate::words::Word;

/// The operators that take one formula.
#[derive(Clone, Copy, PartialEq, Eq, Debug)]
pub enum Unary {
    Not,
    Next,
    Eventually,
    Always,
}

/// The operators that take two formulas.
#[derive(Clone, Copy, PartialEq, Eq, Debug)]
pub enum Binary {
    Or,
    And,
    Implies,
    Until,
}

#[derive(Clone, Copy, PartialEq, Eq, Debug)]
pub enum Operator {
    One(Unary),
    Two(Binary),
}

/// The words that begin a line.
#[derive(Clone, Copy, PartialEq, Eq, Debug)]
pub enum Keyword {
    Signal,
    Name,
    Watch,
}

/// A word by what it is. A name is the word itself: that part of the text, with its offset.
#[derive(Clone, Copy, Debug)]
pub enum Token<'a> {
    Operator(Operator),
    Keyword(Keyword),
    Name(Word<'a>),
}

/// The operator that a word is, if it is one.
// An `Option` and no `TryFrom`, here and below: a word that is no operator or keyword is no error.
fn operator_of(text: &[u8]) -> Option<Operator>
    ensures { result ≡ operator_of text.now }
{
    let operator = match text {
        b"not" => Operator::One(Unary::Not),
        b"next" => Operator::One(Unary::Next),
        b"eventually" => Operator::One(Unary::Eventually),
        b"always" => Operator::One(Unary::Always),
        b"or" => Operator::Two(Binary::Or),
        b"and" => Operator::Two(Binary::And),
        b"implies" => Operator::Two(Binary::Implies),
        b"until" => Operator::Two(Binary::Until),
        _ => return None,
    };
    Some(operator)
}

/// The keyword that a word is, if it is one.
fn keyword_of(text: &[u8]) -> Option<Keyword>
    ensures { result ≡ keyword_of text.now }
{
    match text {
        b"signal" => Some(Keyword::Signal),
        b"name" => Some(Keyword::Name),
        b"watch" => Some(Keyword::Watch),
        _ => None,
    }
}

impl<'a> From<Word<'a>> for Token<'a> {
    ghost from_gives = { λ w t. shown t ≡ token_of w.text.now w.at };

    fn from(word: Word<'a>) -> Token<'a> {
        if let Some(operator) = operator_of(word.text) {
            Token::Operator(operator)
        } else if let Some(keyword) = keyword_of(word.text) {
            Token::Keyword(keyword)
        } else {
            Token::Name(word)
        }
    }
}

/// Whether a word can never be a name: the operators, the keywords, `steps` and `-`.
pub fn is_reserved(text: &[u8]) -> bool
    ensures { result ≡ reserved text.now }
{
    operator_of(text).is_some() || keyword_of(text).is_some() || matches!(text, b"steps" | b"-")
}
