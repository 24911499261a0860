// The records of a log: what one says of a step, and the two kinds that there are, steps as they are and steps in numbers.
ghost use Rattle.std.specs.Prelude.{◌≡◌, Bool, refl};
ghost use Rattle.meaning.specs.Bounds.{most_items};
ghost use Rattle.meaning.specs.declared.Fact.{Fact};
ghost use Rattle.meaning.specs.declared.Step.{Step};
ghost use Rattle.setting.specs.Setting.{Ranged};
ghost use Rattle.session.specs.Coded.{code_of, decoded};
ghost use Rattle.session.specs.Codes.{coded-back};

use meaning::{Fact, Step};

// A record of a step. It is made of a fact and whether the fact was there, and read back it is the step with these.
pub trait Record: Copy {
    ghost of: { Fact → Bool → Self };

    ghost step: { Self → Step };

    fn of(fact: Fact, was: bool) -> Self
        requires { Ranged most_items fact }
        ensures { result ≡ of fact was };

    fn step(&self) -> Step
        ensures { result ≡ step self.now };

    ghost reads_back: { (fact : Fact) (was : Bool) → Ranged most_items fact → step (of fact was) ≡ record { fact = fact; was = was } };
}

impl Record for Step {
    ghost of = { λ f w. record { fact = f; was = w } };

    ghost step = { λ s. s };

    ghost reads_back = { λ f w r. refl };

    fn of(fact: Fact, was: bool) -> Step {
        Step { fact, was }
    }

    fn step(&self) -> Step {
        *self
    }
}

// A step in one number, lowest first: whether the fact was there (2), a name or a link (2), then item (65536) and name, or to (65536), role (256)
// and from. Every number is the code of one step.
impl Record for u64 {
    ghost of = { λ f w. code_of (record { fact = f; was = w }) };

    ghost step = { decoded };

    ghost reads_back = { coded-back };

    fn of(fact: Fact, was: bool) -> u64 {
        let (rest, kind) = match fact {
            Fact::Name { item, name } => (name * 65536 + item, 0),
            Fact::Link { from, role, to } => (setting::number_of(from, role, to), 1),
        };
        ((rest * 2 + kind) * 2 + usize::from(was)) as u64
    }

    fn step(&self) -> Step {
        let was = *self % 2 == 1;
        let rest = (*self / 4) as usize;
        let fact = if *self / 2 % 2 == 0 {
            Fact::Name {
                item: rest % 65536,
                name: rest / 65536,
            }
        } else {
            Fact::Link {
                from: rest / 16777216,
                role: rest / 65536 % 256,
                to: rest % 65536,
            }
        };
        Step { fact, was }
    }
}
