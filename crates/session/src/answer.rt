//! What a session answers to a line.
ghost use Rattle.std.specs.Prelude.{◌≡◌, false, length, is_ok, None};
ghost use Rattle.treap.specs.Ledgers.{open_refusal, blank};
ghost use Rattle.session.specs.Refusals.{reply_to};
ghost use Rattle.session.specs.Sessions.{desk, replied, followed, Answers, Unchanged};

use crate::refusal::Refused;
use crate::session::Session;
use book::{Command, Reply, Unusable, parse};
use boxtree::mark::Mark;
use grade::points::Points;
use plan::{Place, Plan, check_open};
use refusals::Refusal;

impl<'a> Session<'a> {
    /// A session over places that are lent to it, with no plan opened yet.
    pub fn new(places: &'a mut [Place<Points>]) -> Session<'a>
        requires { open_refusal 0 (length places.old) ≡ None }
        ensures { desk result ≡ record { started = false; ledger = blank 0 (length places.old) } }
    {
        Session {
            plan: Plan::open(0, places),
            started: false,
        }
    }
}

impl Session<'_> {
    /// The answer to a command. Before the first plan is opened, any command but opening one is refused; a plan that cannot be
    /// opened leaves the one before it.
    pub fn obey(&mut self, command: Command) -> Reply
        ensures answered { result ≡ replied (desk self.old) command }
        ensures followed { desk self.new ≡ followed (desk self.old) command }
        ensures kept { Unchanged self.old self.new result }
    {
        self.carry_out(command).unwrap_or_else(Reply::from)
    }

    // Carries out a command, unless it is refused.
    fn carry_out(&mut self, command: Command) -> Result<Reply, Refused>
        ensures answered { reply_to result ≡ replied (desk self.old) command }
        ensures followed { desk self.new ≡ followed (desk self.old) command }
        ensures kept { Unchanged self.old self.new (reply_to result) }
    {
        match command {
            Command::New { h } => {
                check_open(u32::from(h), self.plan.places())?;
                self.plan.reopen(u32::from(h));
                self.started = true;
                Ok(Reply::Done)
            }
            Command::Enter { row, col, grade } => {
                self.check_started()?;
                let grade = Points { value: grade };
                self.plan.enter(Mark { row, col, grade })?;
                Ok(Reply::Done)
            }
            Command::Regrade { row, col, grade } => {
                self.check_started()?;
                let grade = Points { value: grade };
                self.plan.regrade(Mark { row, col, grade })?;
                Ok(Reply::Done)
            }
            Command::Strike { row, col } => {
                self.check_started()?;
                self.plan.strike(row, col)?;
                Ok(Reply::Done)
            }
            Command::Look { row, col } => {
                self.check_started()?;
                Ok(match self.plan.look(row, col)? {
                    Some(grade) => Reply::Grade(grade.value),
                    None => Reply::Vacant,
                })
            }
            Command::Draw { .. } => Err(Refused::Line(Unusable)),
        }
    }

    // Whether a plan was opened yet.
    pub(crate) fn check_started(&self) -> Result<(), Unusable>
        ensures { is_ok result ≡ self.now.started }
    {
        if self.started { Ok(()) } else { Err(Unusable) }
    }

    /// The answer to a line.
    pub fn answer(&mut self, line: &[u8]) -> Reply
        ensures answered { Answers (desk self.old) line.now result (desk self.new) }
        ensures kept { Unchanged self.old self.new result }
    {
        match parse(line) {
            Ok(command) => self.obey(command),
            Err(refusal) => Reply::No(refusal.number()),
        }
    }
}
