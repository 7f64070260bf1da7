// A maker of calls with issues, as a tracker has them whose ranks may have grown long.
use field_values::Memory;
use std::alloc::Global;
use tracker_calls::{Answer, Call, Refusal, Reply, ToldText, UserName};
use tracker_rounds::{UserCall, Watched};

/// How many ranks go on in a step of a rebalancing.
const STEP: u32 = 16;

/// What a call was, in short. A rebalancing is root's.
#[derive(Clone, Copy, PartialEq, Eq)]
pub enum Made {
    Tick,
    /// Of the issue of that number.
    Create(u64),
    Start,
    Step(u32),
    Other,
}

/// How the ranks are.
#[derive(Clone, Copy, PartialEq, Eq)]
pub enum Ranks {
    Short,
    /// One is so long that a rebalancing is due.
    Long,
    OnTheWay,
}

/// Numbers the issues that it creates, and keeps what it made.
#[derive(Drop)]
pub struct Issues {
    pub alloc: Global,
    pub ranks: Ranks,
    pub created: u64,
    pub made: Vec<Made>,
}

impl Issues {
    pub fn new(alloc: Global, ranks: Ranks) -> Issues {
        Issues {
            alloc,
            ranks,
            created: 0,
            made: Vec::new(alloc),
        }
    }

    // Creates an issue, under that number.
    fn create(&mut self, number: u64) -> Result<Answer, Memory> {
        let key = format!(in self.alloc; "OPS-{number}")?;
        let issue = ToldText::copy_of(self.alloc, key.as_str())?;
        self.created = number;
        Ok(Answer::Create {
            already: false,
            change: number,
            issue,
        })
    }

    // What a call is, and its answer.
    fn answer(&mut self, caller: &UserName, call: &Call) -> Result<(Made, Answer), Memory> {
        match call {
            Call::Tick { to } => Ok((Made::Tick, Answer::Tick { moment: *to })),
            Call::Create { .. } => {
                let number = self.created.saturating_add(1);
                Ok((Made::Create(number), self.create(number)?))
            }
            Call::RebalanceStart if caller.as_str() == "root" => {
                self.ranks = Ranks::OnTheWay;
                Ok((Made::Start, Answer::RebalanceStart { from: 0, to: 1 }))
            }
            Call::RebalanceStep { count } if caller.as_str() == "root" => {
                self.ranks = Ranks::Short;
                Ok((
                    Made::Step(*count),
                    Answer::RebalanceStep { left: 0, moved: 1 },
                ))
            }
            _ => Ok((Made::Other, Answer::RebalanceStep { left: 0, moved: 0 })),
        }
    }
}

impl Watched for Issues {
    ghost use Rattle.std.specs.Prelude.{None};

    ghost State = { Unit {0} };

    ghost tells = { λ n state. ⊥ };

    ghost makes = { λ old caller call reply new. Unit {0} };

    ghost due = { λ state. None };

    fn call(&mut self, caller: &UserName, call: &Call) -> Reply {
        if self.made.reserve(1).is_err() {
            return Reply::Refused(Refusal::Memory);
        }
        match self.answer(caller, call) {
            Ok((made, answer)) => {
                let _ = self.made.push(made);
                Reply::Ok(answer)
            }
            Err(_) => Reply::Refused(Refusal::Memory),
        }
    }

    fn due_now(&self) -> Result<Option<UserCall>, Memory> {
        let call = match self.ranks {
            Ranks::Short => return Ok(None),
            Ranks::Long => Call::RebalanceStart,
            Ranks::OnTheWay => Call::RebalanceStep { count: STEP },
        };
        let user = UserName::copy_of(self.alloc, "root")?;
        Ok(Some(UserCall { user, call }))
    }
}
