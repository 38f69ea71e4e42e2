//! Laws of what is reported. Each is the contract of a function without a body.

ghost use Rattle.wl_session.specs.Laws.{ReportsWherePhasesDiffer, NoticesAreByRequest, LeftIsByRequest};
ghost use Rattle.wl_session.specs.Laws.{ObservedAreLeft, ObservedDecideNotices};

/// A notice is due exactly where the phase found is another than the one last reported, and isn't the agent's own
/// release.
pub fn reports_are_where_phases_differ()
    ensures { ReportsWherePhasesDiffer }
{}

/// Over an agent's requests, each with the phase last reported and the phase found, the notices and the list that is
/// left are found request by request, whichever unchanged requests the observations leave out.
pub fn reports_go_request_by_request()
    ensures notices { NoticesAreByRequest }
    ensures left { LeftIsByRequest }
{}

/// Where every request but the released ones is looked at, as `finish` takes it, the observations without ends are the
/// new reported list, and the observations alone decide the notices.
pub fn released_are_left_out()
    ensures left { ObservedAreLeft }
    ensures notices { ObservedDecideNotices }
{}
