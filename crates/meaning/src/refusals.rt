// Why an operation has no result: SPECIFICATION 9.1. What checks a table answers with that table's faults, and an operation with a refusal.

ghost use Rattle.std.specs.Prelude.{◌≡◌};
ghost use Rattle.meaning.specs.Refusals.{model_number, policy_number, refusal_number, vocabulary_number};
ghost use Rattle.meaning.specs.declared.refusals.Refusal.TheVariants.{Model, Policy, Vocabulary};

// What is wrong with a vocabulary.
#[derive(Clone, Copy, Debug, PartialEq, Eq)]
pub enum VocabularyFault {
    Length,
    Header,
    Record,
    Opposed,
}

// What is wrong with a policy.
#[derive(Clone, Copy, Debug, PartialEq, Eq)]
pub enum PolicyFault {
    Length,
    Header,
    Record,
    ReachedTwice,
    TooDeep,
}

// What is wrong with a model.
#[derive(Clone, Copy, Debug, PartialEq, Eq)]
pub enum ModelFault {
    Length,
    Header,
    Record,
}

#[derive(Clone, Copy, Debug, PartialEq, Eq)]
pub enum Refusal {
    Vocabulary(VocabularyFault),
    Policy(PolicyFault),
    SecondPolicy(PolicyFault),
    Work,
    Combinations,
    Output,
    Model(ModelFault),
    Input,
    Text,
    Names,
    Spelling,
    Load,
}

impl From<VocabularyFault> for Refusal {
    ghost from_gives = { λ f r. r ≡ Vocabulary f };

    fn from(fault: VocabularyFault) -> Refusal {
        Refusal::Vocabulary(fault)
    }
}

// A fault of the only policy or of the first of two.
impl From<PolicyFault> for Refusal {
    ghost from_gives = { λ f r. r ≡ Policy f };

    fn from(fault: PolicyFault) -> Refusal {
        Refusal::Policy(fault)
    }
}

impl From<ModelFault> for Refusal {
    ghost from_gives = { λ f r. r ≡ Model f };

    fn from(fault: ModelFault) -> Refusal {
        Refusal::Model(fault)
    }
}

impl VocabularyFault {
    fn number(self) -> u32
        ensures { result ≡ vocabulary_number self }
    {
        match self {
            VocabularyFault::Length => 1,
            VocabularyFault::Header => 2,
            VocabularyFault::Record => 3,
            VocabularyFault::Opposed => 44,
        }
    }
}

impl PolicyFault {
    fn number(self) -> u32
        ensures { result ≡ policy_number self }
    {
        match self {
            PolicyFault::Length => 4,
            PolicyFault::Header => 5,
            PolicyFault::Record => 6,
            PolicyFault::ReachedTwice => 7,
            PolicyFault::TooDeep => 8,
        }
    }
}

impl ModelFault {
    fn number(self) -> u32
        ensures { result ≡ model_number self }
    {
        match self {
            ModelFault::Length => 31,
            ModelFault::Header => 32,
            ModelFault::Record => 33,
        }
    }
}

impl Refusal {
    // The number that stands for it where it is told.
    pub fn number(self) -> u32
        ensures { result ≡ refusal_number self }
    {
        match self {
            Refusal::Vocabulary(f) => f.number(),
            Refusal::Policy(f) => f.number(),
            Refusal::SecondPolicy(f) => f.number() + 10,
            Refusal::Work => 21,
            Refusal::Combinations => 22,
            Refusal::Output => 23,
            Refusal::Model(f) => f.number(),
            Refusal::Input => 40,
            Refusal::Text => 41,
            Refusal::Names => 42,
            Refusal::Spelling => 43,
            Refusal::Load => 45,
        }
    }
}
