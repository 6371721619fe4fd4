ghost use Rattle.ssz_json_text.specs.Laws.{TextsAreOneLine};

/// No text has a byte below 32, so that each is one line.
pub fn texts_are_one_line()
    ensures { TextsAreOneLine }
{}
