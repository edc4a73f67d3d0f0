// What a step answers. What a step is, on nets, is in specs/; that it keeps a net well formed is in proofs/.
#![tactic(auto)]

ghost use Rattle.std.specs.Prelude.{◌≡◌};
ghost use Rattle.stepping.specs.Step.{number_of};

// Not a `Result`: theorems of promises/ and the bytes of a run speak of granted as of the other answers.
#[derive(Clone, Copy, PartialEq, Eq, Debug)]
pub enum Answer {
    Granted,
    Done,
    Denied,
    NoMatch,
    NoPlace,
    NoSite,
    NoNet,
}

// The paper's number of each answer.
impl From<Answer> for u8 {
    ghost from_gives = { λ answer n. n ≡ number_of answer };

    fn from(answer: Answer) -> u8 {
        match answer {
            Answer::Granted => 0,
            Answer::Done => 1,
            Answer::Denied => 2,
            Answer::NoMatch => 3,
            Answer::NoPlace => 4,
            Answer::NoSite => 5,
            Answer::NoNet => 6,
        }
    }
}
