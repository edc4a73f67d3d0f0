// The numbers that stand for kinds in an image, as enums: what an operand is, what an action does, what a node is. A number of an image becomes
// one of them where it is tested.
ghost use Rattle.std.specs.Prelude.{◌≡◌};
ghost use Rattle.net.specs.Codes.{tag_code, capability_code, tag_of, capability_of, condition_of, advice_of};

use belnap::Operator;
use std::error::Error;
use std::fmt;

// A number that stands for nothing of its kind.
#[derive(Clone, Copy, PartialEq, Eq, Debug)]
pub struct Unknown;

impl fmt::Display for Unknown {
    fn fmt<W: fmt::Write>(&self, f: &mut fmt::Formatter<W>) -> fmt::Result {
        f.write_str("the number stands for nothing of its kind")
    }
}

impl Error for Unknown {}

// What an operand is: 0 a name, 1 a variable, 2 one that binds a variable, 3 any, 4 binder.
#[derive(Clone, Copy, PartialEq, Eq, Debug)]
pub enum Tag {
    Name,
    Variable,
    Binds,
    Any,
    Binder,
}

impl From<Tag> for u16 {
    ghost from_gives = { λ tag n. n ≡ tag_code tag };

    fn from(tag: Tag) -> u16 {
        match tag {
            Tag::Name => 0,
            Tag::Variable => 1,
            Tag::Binds => 2,
            Tag::Any => 3,
            Tag::Binder => 4,
        }
    }
}

impl TryFrom<u16> for Tag {
    type Error = Unknown;

    ghost try_from_gives = { λ n tag. tag ≡ tag_of n };

    fn try_from(code: u16) -> Result<Tag, Unknown> {
        match code {
            0 => Ok(Tag::Name),
            1 => Ok(Tag::Variable),
            2 => Ok(Tag::Binds),
            3 => Ok(Tag::Any),
            4 => Ok(Tag::Binder),
            _ => Err(Unknown),
        }
    }
}

// What an action does: 1 puts, 2 takes, 3 reads.
#[derive(Clone, Copy, PartialEq, Eq, Debug)]
pub enum Capability {
    Put,
    Take,
    Read,
}

impl From<Capability> for u8 {
    ghost from_gives = { λ capability n. n ≡ capability_code capability };

    fn from(capability: Capability) -> u8 {
        match capability {
            Capability::Put => 1,
            Capability::Take => 2,
            Capability::Read => 3,
        }
    }
}

impl TryFrom<u8> for Capability {
    type Error = Unknown;

    ghost try_from_gives = { λ n capability. capability ≡ capability_of n };

    fn try_from(code: u8) -> Result<Capability, Unknown> {
        match code {
            1 => Ok(Capability::Put),
            2 => Ok(Capability::Take),
            3 => Ok(Capability::Read),
            _ => Err(Unknown),
        }
    }
}

// The nodes that are conditions, kinds 1 to 8.
#[derive(Clone, Copy, PartialEq, Eq, Debug)]
pub enum Condition {
    Always,
    Not,
    And,
    Or,
    Equal,
    Test,
    Dominates,
    Grants,
}

impl TryFrom<u8> for Condition {
    type Error = Unknown;

    ghost try_from_gives = { λ n condition. condition ≡ condition_of n };

    fn try_from(kind: u8) -> Result<Condition, Unknown> {
        match kind {
            1 => Ok(Condition::Always),
            2 => Ok(Condition::Not),
            3 => Ok(Condition::And),
            4 => Ok(Condition::Or),
            5 => Ok(Condition::Equal),
            6 => Ok(Condition::Test),
            7 => Ok(Condition::Dominates),
            8 => Ok(Condition::Grants),
            _ => Err(Unknown),
        }
    }
}

// The nodes that are recommendations, kinds 16 to 24: a constant, what follows a condition, not, and the two-place operators.
#[derive(Clone, Copy, PartialEq, Eq, Debug)]
pub enum Advice {
    Constant,
    Of,
    Not,
    Two(Operator),
}

impl TryFrom<u8> for Advice {
    type Error = Unknown;

    ghost try_from_gives = { λ n advice. advice ≡ advice_of n };

    fn try_from(kind: u8) -> Result<Advice, Unknown> {
        match kind {
            16 => Ok(Advice::Constant),
            17 => Ok(Advice::Of),
            18 => Ok(Advice::Not),
            19 => Ok(Advice::Two(Operator::And)),
            20 => Ok(Advice::Two(Operator::Or)),
            21 => Ok(Advice::Two(Operator::Consensus)),
            22 => Ok(Advice::Two(Operator::Gather)),
            23 => Ok(Advice::Two(Operator::Implies)),
            24 => Ok(Advice::Two(Operator::Before)),
            _ => Err(Unknown),
        }
    }
}
