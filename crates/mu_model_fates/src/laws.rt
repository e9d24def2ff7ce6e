//! Laws of the definitions: functions that do nothing, whose contracts are proved.

ghost use Rattle.mu_model_fates.specs.Laws.{AskedBefore, JobGoesOn, JobIsLogged, ReachedWasTaken, ShownSinceTaken, TookWasOffered, VerifiedIsHeld, VersionsRise};
ghost use Rattle.mu_model_fates.specs.Moments.{MomentsAreTheGreatest, RequestsKeepMoments, TimeKeepsMoments};

/// Of each job the log has, in order, that it was taken, verified and asked for.
pub fn jobs_are_logged()
    ensures taken { ReachedWasTaken }
    ensures asked { AskedBefore }
    ensures job { JobIsLogged }
{
    mu_model_node::laws::flash_work();
}

/// The versions of a node's images rise.
pub fn versions_rise()
    ensures rise { VersionsRise }
    ensures since { ShownSinceTaken }
{
    mu_model_node::laws::flash_work();
}

/// What a node had verified it holds, unless it was canceled.
pub fn verified_is_held()
    ensures { VerifiedIsHeld }
{
    mu_model_node::laws::flash_work();
}

/// What a node takes was offered to it.
pub fn took_was_offered()
    ensures { TookWasOffered }
{
    mu_model_node::laws::flash_work();
    mu_model_node::laws::entries_have_causes();
}

/// A job that is verified goes on until it is canceled, or asked for and made active.
pub fn jobs_go_on()
    ensures { JobGoesOn }
{
    mu_model_node::laws::flash_work();
}

/// The moment of a node is the greatest that it was handed.
pub fn moments_are_the_greatest()
    ensures requests { RequestsKeepMoments }
    ensures time { TimeKeepsMoments }
    ensures steps { MomentsAreTheGreatest }
{}
