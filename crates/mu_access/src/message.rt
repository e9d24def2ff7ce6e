use mu_blobmsg::BlobMsg;
use mu_distmsg::DistMsg;
use mu_updmsg::UpdMsg;

/// A message of one of the three models (MshMBT, MshDFU). What it lends lies in the payload.
#[derive(Drop, Debug, PartialEq)]
pub enum Message<'a> {
    /// Of the BLOB Transfer model.
    Blob(BlobMsg<'a>),
    /// Of the Firmware Update model.
    Upd(UpdMsg<'a>),
    /// Of the Firmware Distribution model.
    Dist(DistMsg<'a>),
}
