//! Worked rows of a node: functions that do nothing, whose contracts are evaluated.

ghost use Rattle.mu_model_node_rows.specs.Others.{Addresses, Logs, Moments, Operations, Pairs, Worn};
ghost use Rattle.mu_model_node_rows.specs.Runs.{BlockByBlock, UpdateByUpdate};
ghost use Rattle.mu_model_node_rows.specs.Sessions.{Sessions};
ghost use Rattle.mu_model_node_rows.specs.Tables.{EachMessage};

/// What each message does in each phase: its answer, the phases and the record count after it, and whether it counts as heard.
pub fn each_message()
    ensures { EachMessage }
{}

/// Blocks, chunks and reports; timeouts, cancels and starts.
pub fn runs()
    ensures blocks { BlockByBlock }
    ensures updates { UpdateByUpdate }
{}

/// Which packets a node handles, and that each counts for its last moment.
pub fn addressing()
    ensures addresses { Addresses }
    ensures moments { Moments }
{}

/// What is logged, which operations an event does to the flash, and when a flash is worn out.
pub fn log_and_flash()
    ensures logs { Logs }
    ensures operations { Operations }
    ensures worn { Worn }
{}

/// A node with two images.
pub fn two_images()
    ensures { Pairs }
{}

/// What is left of a link that goes, and of one that is ready again.
pub fn links()
    ensures { Sessions }
{}
