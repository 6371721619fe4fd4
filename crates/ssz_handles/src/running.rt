// The lines of a session.
ghost use Rattle.std.specs.Prelude.{◌≡◌, [], IfOk, IfErr, None};
ghost use Rattle.std.specs.Result.{result_map_both};
ghost use Rattle.ssz_decisions.specs.Content.{KeepsEngine};
ghost use Rattle.ssz_said.specs.declared.status.TheConstants.{NO_MEMORY};
ghost use Rattle.ssz_said.specs.Outcome.{refused};
ghost use Rattle.ssz_script.specs.Grammar.{line_of, statements};
ghost use Rattle.ssz_handles.specs.Leaving.{LineLeaves, SaidLeaves};
ghost use Rattle.ssz_handles.specs.Session.{Begins, StatementDoes, SessionDoesLine, Refuses, SessionRuns, Starts, StartsOn, ran_of};

use super::no_files::NoFiles;
use super::ran::Ran;
use super::session::Session;
use ssz_chunk::ShaPair;
use ssz_engine::{Engine, EngineFault, Outcome};
use ssz_machine::Place;
use ssz_said::{SszFault, status};
use ssz_schema::Schema;
use ssz_script::{LineFault, Reply, Statement, read_line, reply_text};
use ssz_typed::read_types;
use ssz_versions::Writer;
use std::alloc::Global;

// What a line came to, by how its statement ended.
fn ran_of(stepped: Result<Outcome, EngineFault>) -> Ran
    ensures { result ≡ ran_of stepped }
{
    match stepped {
        Ok(Outcome::Accepted) => Ran::Done,
        Ok(Outcome::Refused) => Ran::Refused,
        Err(EngineFault::Read) => Ran::Unread,
        Err(EngineFault::Write) => Ran::Unwritten,
        Err(EngineFault::Memory) => Ran::Memory,
    }
}

// Does the statement of a line, and writes the reply.
fn run_statement(
    engine: &mut Engine<ShaPair>,
    hasher: &mut ShaPair,
    files: &mut NoFiles,
    line: u64,
    statement: &Statement,
    reply: &mut Vec<u8>,
) -> Ran
    requires { reply.old.items ≡ [] }
    ensures keeps { KeepsEngine engine.old engine.new }
    ensures does { StatementDoes result statement.now
        (record { engine = engine.old; hashed = hasher.old; line = line })
        engine.new reply.new.items }
    ensures leaves { SaidLeaves result statement.now
        (record { engine = engine.old; hashed = hasher.old; line = line })
        engine.new hasher.new reply.new.items }
{
    if !statement.has_short_literal() {
        return Ran::TooLong;
    }
    let stepped = engine.step(Writer(0), Place::Run, line, statement, files, hasher, reply);
    ran_of(stepped)
}

// Refuses a line that is not of the grammar.
fn refuse(line: u64, reply: &mut Vec<u8>) -> Ran
    requires { reply.old.items ≡ [] }
    ensures { Refuses result line reply.new.items }
{
    let refused = Reply::Refused {
        line,
        code: Reply::SYNTAX,
        fault: None,
    };
    match reply_text(&refused, reply) {
        Ok(()) => Ran::Refused,
        Err(_) => Ran::Memory,
    }
}

// Does what a line says, and writes the reply.
// Seven parameters: the fields of a session are lent one by one, as its reply is one of them.
fn run_text(
    alloc: Global,
    engine: &mut Engine<ShaPair>,
    hasher: &mut ShaPair,
    files: &mut NoFiles,
    line: u64,
    text: &[u8],
    reply: &mut Vec<u8>,
) -> Ran
    requires { reply.old.items ≡ [] }
    ensures keeps { KeepsEngine engine.old engine.new }
    ensures does { SessionDoesLine result text.now
        (record { engine = engine.old; hashed = hasher.old; line = line })
        engine.new reply.new.items }
    ensures leaves { LineLeaves (line_of statements text.now) result
        (record { engine = engine.old; hashed = hasher.old; line = line })
        engine.new hasher.new reply.new.items }
{
    if text.len() > status::MOST_BYTES {
        return Ran::TooLong;
    }
    match read_line(alloc, text) {
        Ok(None) => Ran::Quiet,
        Ok(Some(statement)) => run_statement(engine, hasher, files, line, &statement, reply),
        Err(LineFault::Syntax) => refuse(line, reply),
        Err(LineFault::Memory) => Ran::Memory,
    }
}

impl Session {
    // Over these types, with no version.
    fn of_types(alloc: Global, schema: Schema) -> Result<Session, SszFault>
        ensures ok { IfOk result (λ session. (session.engine.types ≡ schema) × Begins session) }
        ensures err { IfErr result (λ fault. fault ≡ refused NO_MEMORY) }
    {
        let mut hasher = ShaPair::new();
        match Engine::start(alloc, schema, status::MOST_SHOWN, &mut hasher) {
            Ok(engine) => Ok(Session {
                engine,
                hasher,
                files: NoFiles::new(),
                lines: 0,
                reply: Vec::new(alloc),
            }),
            Err(_) => Err(SszFault::of(status::NO_MEMORY)),
        }
    }

    /// A session over the schema that the bytes of a schema file define.
    pub fn start(alloc: Global, schema: &[u8]) -> Result<Session, SszFault>
        ensures { Starts result schema.now }
    {
        Session::of_types(alloc, read_types(alloc, schema)?)
    }

    /// The same in a box.
    pub fn boxed(alloc: Global, schema: &[u8]) -> Result<Box<Session, Global>, SszFault>
        ensures { Starts (result_map_both (λ session. session.value) (λ fault. fault) result)
            schema.now }
    {
        let session = Session::start(alloc, schema)?;
        Ok(Box::new(alloc, session)?)
    }

    /// A session over a copy of a schema.
    fn start_on(alloc: Global, schema: &Schema) -> Result<Session, SszFault>
        ensures { StartsOn schema.now result }
    {
        Session::of_types(alloc, schema.copied(alloc)?)
    }

    /// The same in a box.
    pub fn boxed_on(alloc: Global, schema: &Schema) -> Result<Box<Session, Global>, SszFault>
        ensures { StartsOn schema.now
            (result_map_both (λ session. session.value) (λ fault. fault) result) }
    {
        let session = Session::start_on(alloc, schema)?;
        Ok(Box::new(alloc, session)?)
    }

    /// Does the statement that a line says, and keeps the reply.
    pub fn run(&mut self, alloc: Global, text: &[u8]) -> Ran
        ensures { SessionRuns result text.now self.old self.new }
    {
        self.reply.clear();
        self.lines = self.lines.saturating_add(1);
        run_text(
            alloc,
            &mut self.engine,
            &mut self.hasher,
            &mut self.files,
            self.lines,
            text,
            &mut self.reply,
        )
    }
}
