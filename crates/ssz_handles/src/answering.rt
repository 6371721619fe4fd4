// What a session answers to a statement that is no line.
ghost use Rattle.std.specs.Prelude.{◌≡◌, IfOk};
ghost use Rattle.ssz_decisions.specs.Content.{KeepsEngine};
ghost use Rattle.ssz_said.specs.Statements.{HasShortLiteral};
ghost use Rattle.ssz_handles.specs.Answering.{ArgumentsDo, StatementReaches, answer_of, scene_at};
ghost use Rattle.ssz_handles.specs.Leaving.{StatementLeaves};

use super::session::Session;
use ssz_engine::EngineFault;
use ssz_machine::Place;
use ssz_said::{SszFault, status, taken};
use ssz_script::{Reply, Statement};
use ssz_versions::Writer;

// What the engine answered, for C.
fn answer_of(reached: Result<Reply, EngineFault>) -> Result<Reply, SszFault>
    ensures { result ≡ answer_of reached }
{
    match reached {
        Ok(reply) => taken(reply),
        Err(EngineFault::Read) => Err(SszFault::of(status::NO_READ)),
        Err(EngineFault::Write) => Err(SszFault::of(status::NO_WRITE)),
        Err(EngineFault::Memory) => Err(SszFault::of(status::NO_MEMORY)),
    }
}

impl Session {
    // Does a statement.
    fn reach(&mut self, statement: &Statement) -> Result<Reply, EngineFault>
        requires { HasShortLiteral statement.now }
        ensures keeps { KeepsEngine self.old.engine self.new.engine }
        ensures lines { self.new.lines ≡ self.old.lines }
        ensures text { self.new.reply ≡ self.old.reply }
        ensures does { StatementReaches result statement.now (scene_at self.old) self.new.engine }
        ensures leaves { StatementLeaves result statement.now (scene_at self.old) self.new.engine
            self.new.hasher }
    {
        self.engine.answer(
            Writer(0),
            Place::Run,
            self.lines,
            statement,
            &mut self.files,
            &mut self.hasher,
        )
    }

    /// Does the statement that arguments say, where they say one.
    pub fn answer(&mut self, said: Result<Statement, SszFault>) -> Result<Reply, SszFault>
        requires { IfOk said HasShortLiteral }
        ensures { ArgumentsDo said self.old self.new result }
    {
        let statement = said?;
        let reached = self.reach(&statement);
        drop(statement);
        answer_of(reached)
    }
}
