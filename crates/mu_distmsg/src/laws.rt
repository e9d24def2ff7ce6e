//! What holds of the messages: a function that does nothing, whose contract is the law.
ghost use Rattle.mu_distmsg.specs.Laws.{ViewTellsAll};

use mu_model_wire::laws::what_is_shown_is_found;

/// Messages with even progress that are the same as plain messages are the same, but for the places of their lent
/// octets.
pub fn view_tells_all()
    ensures { ViewTellsAll }
{
    what_is_shown_is_found();
}
