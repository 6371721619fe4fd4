// From the words of `part` and the files to what is left to do.
ghost use Rattle.std.specs.Prelude.{◌≡◌, ◌<◌, ◌≤◌, length, Some};
ghost use Rattle.ssz_schema.specs.Paths.{path_type};
ghost use Rattle.ssz_schema.specs.Types.{SszType};
ghost use Rattle.ssz_schema.specs.Unfolding.{type_of};
ghost use Rattle.ssz_tool.specs.Commands.{encoding_in, part};
ghost use Rattle.ssz_tool.specs.Follows.{AnswersPlan, Follows};
ghost use Rattle.ssz_tool.specs.Tasks.{IsTask, IsTextOf};

use crate::files::{load, load_schema};
use crate::job::Task;
use crate::line::{Line, bytes_text};
use crate::stop::Stop;
use ssz_line::Steps;
use ssz_outside::Files;
use ssz_schema::{PathStep, Schema, TypeId};
use ssz_slices::Slice;
use ssz_words::PartArgs;
use std::alloc::Global;

// The line of the part's encoding, found without reading what is beside it.
fn text_of_part(
    alloc: Global,
    max: u32,
    schema: &Schema,
    id: TypeId,
    path: &[PathStep],
    bytes: &[u8],
) -> Result<String, Stop>
    requires known { id < length schema.now.trees }
    requires short { length bytes.now ≤ max }
    ensures { (form : SszType) → path_type (type_of schema.now id) path.now ≡ Some form
        → AnswersPlan IsTextOf (encoding_in max (type_of schema.now id) form path.now bytes.now)
        result }
{
    let whole = match Slice::new(schema, id, bytes) {
        Ok(whole) => whole,
        Err(fault) => return Err(Stop::Says(Line::Invalid(fault))),
    };
    let part = match whole.at(path) {
        Ok(part) => part,
        Err(_) => return Err(Stop::Says(Line::Absent)),
    };
    let encoding = part.encoding();
    if encoding.as_slice().len() > max as usize {
        return Err(Stop::Says(Line::TooLong));
    }
    Ok(bytes_text(alloc, encoding.as_slice())?)
}

/// The task of `part SCHEMA TYPE FILE PATH`, with the path that PATH spells. The type and the path
/// are tested before the value file is read.
pub fn task_of_part<F: Files>(
    alloc: Global,
    files: &mut F,
    args: &PartArgs,
    path: &Steps,
) -> Result<Task, Stop>
    requires usable { F.usable files.old }
    ensures { Follows F.Files IsTask (part args.now path.now) result files.old files.new }
{
    let schema = load_schema(alloc, files, args.schema.as_str())?;
    let Some(id) = schema.find(args.type_name.as_str()) else {
        return Err(Stop::Says(Line::NoType));
    };
    let Some(steps) = path.fitting(alloc, &schema, id)? else {
        return Err(Stop::Says(Line::BadPath));
    };
    let max = args.max_bytes;
    let bytes = load(alloc, files, args.file.as_str(), max as u64, Line::TooLong)?;
    Ok(Task::Text(text_of_part(alloc, max, &schema, id, &steps, &bytes)?))
}
