//! What holds of the messages: a function that does nothing, whose contract is the law.
ghost use Rattle.mu_access.specs.Laws.{ViewTellsAll};

/// Messages with even progress that are the same as plain messages are the same, but for the places of their lent
/// octets.
pub fn view_tells_all()
    ensures { ViewTellsAll }
{
    mu_blobmsg::laws::view_tells_all();
    mu_updmsg::laws::view_tells_all();
    mu_distmsg::laws::view_tells_all();
}
