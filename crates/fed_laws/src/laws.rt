//! Laws of every run of events, of every trace that a session stands for, and of the trace of every script.
ghost use Rattle.fed_laws.specs.Laws.{OfRuns, OfSessions, OfScripts, AsksOnce, HasCause, ReachesItsPage, IsAnswered, IsAskedFor};
ghost use Rattle.fed_laws.specs.Laws.{ComesByToken, DisconnectHasCause, GatheringAwaits, GoesByDisconnect, NamedWithCookies};

/// A call that gathers what its providers say waits for one of them: it never hangs with all of them settled.
pub fn gathering_awaits()
    ensures runs { OfRuns GatheringAwaits }
    ensures sessions { OfSessions GatheringAwaits }
    ensures scripts { OfScripts GatheringAwaits }
{}

/// No call asks for two tokens.
pub fn asks_once()
    ensures runs { OfRuns AsksOnce }
    ensures sessions { OfSessions AsksOnce }
    ensures scripts { OfScripts AsksOnce }
{}

/// Where a call asks for a token, the user had agreed: by choosing an account that was connected, or by going on at the prompt of the one
/// that was offered, or chosen; or by the event the last provider of the call is settled, and a kept permission satisfies the rules of
/// reselection. The request names that account and the call's own page, client, nonce and text, and says that the account was reselected
/// exactly there.
pub fn assertion_has_cause()
    ensures runs { OfRuns HasCause }
    ensures sessions { OfSessions HasCause }
    ensures scripts { OfScripts HasCause }
{}

/// A token that a page gets is in the reply to the request of a call of its own, and the page was neither loaded nor closed since that
/// call.
pub fn token_reaches_its_page()
    ensures runs { OfRuns ReachesItsPage }
    ensures sessions { OfSessions ReachesItsPage }
    ensures scripts { OfScripts ReachesItsPage }
{}

/// Where the reply to a call's request holds a token, its page gets the token, unless the call had a result or the page was loaded or
/// closed before.
pub fn token_is_given()
    ensures runs { OfRuns IsAnswered }
    ensures sessions { OfSessions IsAnswered }
    ensures scripts { OfScripts IsAnswered }
{}

/// Where the user has agreed in one of the ways of `assertion_has_cause`, the call asks for the token.
pub fn cause_is_followed()
    ensures runs { OfRuns IsAskedFor }
    ensures sessions { OfSessions IsAskedFor }
    ensures scripts { OfScripts IsAskedFor }
{}

/// A permission is kept since before the script, or since its page was given a token for its account.
pub fn permission_comes_by_token()
    ensures runs { OfRuns ComesByToken }
    ensures sessions { OfSessions ComesByToken }
    ensures scripts { OfScripts ComesByToken }
{}

/// A permission goes only by the reply to a disconnect call of its page's origin and its provider.
pub fn permission_goes_by_disconnect()
    ensures runs { OfRuns GoesByDisconnect }
    ensures sessions { OfSessions GoesByDisconnect }
    ensures scripts { OfScripts GoesByDisconnect }
{}

/// Where a call asks for a disconnect, its page stands and was neither loaded nor closed since it began, a permission of the page and the
/// provider was kept when it began, and by the event both files of the provider are good and agree. The request goes to the endpoint
/// that the configuration names, with the call's own page, client and hint.
pub fn disconnect_has_cause()
    ensures runs { OfRuns DisconnectHasCause }
    ensures sessions { OfSessions DisconnectHasCause }
    ensures scripts { OfScripts DisconnectHasCause }
{}

/// A request that names its page is the one for the client's links, which carries no cookies, or asks for a token or for a disconnect, and
/// has the cause of `assertion_has_cause` or of `disconnect_has_cause`: the site is named with the user's cookies only there.
pub fn named_with_cookies()
    ensures runs { OfRuns NamedWithCookies }
    ensures sessions { OfSessions NamedWithCookies }
    ensures scripts { OfScripts NamedWithCookies }
{}
