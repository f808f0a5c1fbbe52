//! Scripts that the laws of two jars and of one token are about.
ghost use Rattle.tests_callers.specs.Others.{AreJarTwins, CookiesDiffer, AreTokenTwins, TokensDiffer};

/// Wherever a load stands in a script, another cookie in its reply makes a script that differs in cookies alone.
pub fn loads_bring_another_cookie()
    ensures twins { AreJarTwins }
    ensures differ { CookiesDiffer }
{}

/// Wherever the reply with a token stands in a script, another token makes a script that differs in that token alone.
pub fn replies_hold_another_token()
    ensures twins { AreTokenTwins }
    ensures differ { TokensDiffer }
{}
