//! Laws of two scripts.
ghost use Rattle.std.specs.Prelude.{◌≡◌, ℕ, suc, None, Option};
ghost use Rattle.fed_script.specs.Script.{Script};
ghost use Rattle.fed_twin.specs.declared.fault.TwinFault.{TwinFault};
ghost use Rattle.fed_twin.specs.Fault.{TwinFaultOf};
ghost use Rattle.fed_twin.specs.Script.{Quiet};
ghost use Rattle.fed_twin.specs.Twin.{Twin};
ghost use Rattle.fed_twin.specs.Jars.{TwoJars};
ghost use Rattle.fed_twin.specs.Laws.{TwoWorlds, SameWindows};
ghost use Rattle.fed_twin.specs.Looks.{LooksAreSeen};
ghost use Rattle.fed_twin.specs.Origins.{NumbersDecide};
ghost use Rattle.fed_twin.specs.Tokens.{OneToken};

/// Two scripts that differ only in relying parties that are of no provider's party, their clients, nonces, params and contexts, kept
/// permissions and metadata replies send the same requests of gets for well-known files, configurations and accounts, byte for byte and in
/// the same order, until either asks for a token or a disconnect.
pub fn two_worlds()
    ensures { TwoWorlds }
{}

/// So long the same calls of two such scripts wait for each provider, in the same order.
pub fn same_windows()
    ensures { SameWindows }
{}

/// Two scripts that differ only in cookies do the same, but for the cookies that come, go and are sent.
pub fn two_jars()
    ensures { TwoJars }
{}

/// Two scripts that differ in the token of one reply do the same, but for that token in at most one result.
pub fn one_token()
    ensures { OneToken }
{}

/// Origins are named together in two scripts exactly where each event names origins of one number, in the order of first naming.
pub fn numbers_decide()
    ensures { NumbersDecide }
{}

/// The twin test finds nothing of twins, and nothing else of them.
pub fn twins_have_no_fault()
    ensures found { (a b : Script) → Twin a b → TwinFaultOf a b None }
    ensures only { (a b : Script) (found : Option TwinFault) → Twin a b → TwinFaultOf a b found → found ≡ None }
{}

/// Each script is its own twin, and what is quiet up to an event was quiet before it.
pub fn twins_of_themselves()
    ensures selves { (a : Script) → Twin a a }
    ensures before { (s : Script) (k : ℕ) → Quiet s (suc k) → Quiet s k }
{}

/// Where providers can tell the same of what happened, these look-backs are the same, on which a sign-in request hangs: the time, pending
/// gets, gets that began and gets in Window, what is told of pages, the cookies and the statuses of providers, and the requests that were
/// sent.
pub fn looks_are_seen()
    ensures { LooksAreSeen }
{}
