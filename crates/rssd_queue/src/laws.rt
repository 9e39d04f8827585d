//! What is true of every run of a queue: of any list of puts and serves that begins where nothing waits. `put`, `next` and `serve`
//! are each a step of such a run.
ghost use Rattle.rssd_queue.specs.Runs.{AnsweredOnce, SectorsInOrder, ReadsInOrder, ServedInTime};

/// Each accepted command is answered at most once, with its tag, and no other is answered.
pub fn each_command_is_answered_once()
    ensures { AnsweredOnce }
{}

/// Of each sector the served commands are the first of the accepted ones, in the order in which these were accepted.
pub fn each_sector_keeps_its_order()
    ensures { SectorsInOrder }
{}

/// Where no served command is refused, each read gives the row that the sector array has where the commands are carried out in
/// the order in which they were accepted.
pub fn reads_give_the_rows_of_the_order()
    ensures { ReadsInOrder }
{}

/// A command is served at the latest by the 1,024th serve after its put. No smaller number will do.
pub fn every_command_is_served_in_time()
    ensures { ServedInTime }
{}
