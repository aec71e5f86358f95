//! Laws of texts of tables.
ghost use Rattle.mcf_table.specs.Laws.{TextsAreUnambiguous, WrittenTablesReadBack};

/// A text says just one list of records, or has just one fault.
pub fn texts_are_unambiguous()
    ensures { TextsAreUnambiguous }
{}

/// A text whose cells all stand between quotes says these cells, if each row has one that isn't
/// empty, and no blank stands at the ends of any.
pub fn written_tables_read_back()
    ensures { WrittenTablesReadBack }
{}
