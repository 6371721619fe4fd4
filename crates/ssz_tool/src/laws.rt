ghost use Rattle.ssz_tool.specs.PrintedProofs.{PrintedProofsAreValid, ScriptsPrintValidProofs};

/// The reply to an accepted `prove`, as a file, makes `verify` print `valid` for the
/// hash_tree_root of the version, where the file has at most 2^26 bytes.
pub fn printed_proofs_are_valid()
    ensures { PrintedProofsAreValid }
{}

/// So it is of each `prove` of a run, alone or woven, where each type is legal and what the steps
/// bring in are bytes.
pub fn scripts_print_valid_proofs()
    ensures { ScriptsPrintValidProofs }
{}
