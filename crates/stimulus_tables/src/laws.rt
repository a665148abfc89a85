ghost use Rattle.stimulus_tables.specs.Laws.{RecordsAreJudgedOnce, TablesArePlayed, TablesArePrintable, TablesAreStimuli, TablesAreWellFormed, TablesHaveNoCycle};

/// A law: records are one table, or leave the form at one record, and not both.
pub fn records_are_judged_once()
    ensures { RecordsAreJudgedOnce }
{}

/// A law: the names of a table differ and are names of the language, and its times rise from 0.
pub fn tables_are_stimuli()
    ensures { TablesAreStimuli }
{}

/// A law: the system of a table is printable, so that its text is read back as the system.
pub fn tables_are_printable()
    ensures { TablesArePrintable }
{}

/// A law: the system of a table is well-formed, so that no rule refuses it.
pub fn tables_are_well_formed()
    ensures { TablesAreWellFormed }
{}

/// A law: the system of a table has no cycle, so that its outputs have an order.
pub fn tables_have_no_cycle()
    ensures { TablesHaveNoCycle }
{}

/// A law: the trace of the system of a table has a row at each of its times, with the words that the table has for this time.
pub fn tables_are_played()
    ensures { TablesArePlayed }
{}
