//! Worked rows of a node's and a distributor's records: functions that do nothing, whose contracts are proved.

ghost use Rattle.mu_model_represents_rows.specs.DistributorRecords.{DistributorRecords};
ghost use Rattle.mu_model_represents_rows.specs.ManyReceivers.{ManyReceivers};
ghost use Rattle.mu_model_represents_rows.specs.NodeRecords.{NodeRecords};

/// Records that are a node's, at the ends of the ranges of their fields.
pub fn node_records()
    ensures { NodeRecords }
{}

/// Records that are a distributor's, at the ends of the ranges of their fields.
pub fn distributor_records()
    ensures { DistributorRecords }
{}

/// A note of a distributor with 128 receivers is one, and with 129 none.
pub fn many_receivers()
    ensures { ManyReceivers }
{}
