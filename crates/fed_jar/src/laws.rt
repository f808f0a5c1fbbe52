//! What is true of the definitions: each function's contract is a law, and its body is empty.
ghost use Rattle.fed_jar.specs.Laws.{GoneByOwn, JarIsChanged, LastStands, MostStay, OtherPartsStay, OwnCookiesGo, OwnPartIsChanged};
ghost use Rattle.fed_jar.specs.Laws.{PartIsOfChanges, TextIsOfParty, TextIsOfPartyChanges};

/// The Cookie field is a function of the cookies of the party of the URL's host, the URL, the
/// rules and the time.
pub fn text_is_of_party()
    ensures { TextIsOfParty }
{}

/// The parts of a jar by parties are kept apart: a change of a cookie of one party leaves the part
/// of every other as it was, and the part of a party is that of the party's own changes.
pub fn parts_are_apart()
    ensures others { OtherPartsStay }
    ensures own { OwnPartIsChanged }
    ensures changes { PartIsOfChanges }
{}

/// The Cookie field is a function of the changes of the party of the URL's host, the URL, the rules
/// and the time.
pub fn text_is_of_party_changes()
    ensures { TextIsOfPartyChanges }
{}

/// A cookie of one party never makes a cookie of another go, and which one it makes go is told by
/// the cookies of its own party.
pub fn own_cookies_go()
    ensures own { OwnCookiesGo }
    ensures told { GoneByOwn }
{}

/// Whatever is stored, no more than the most cookies of a party stand, where no more stood before.
pub fn most_stay()
    ensures { MostStay }
{}

/// What a jar keeps by parties is the list of cookies after the changes that each stored one makes.
pub fn jar_is_changed()
    ensures { JarIsChanged }
{}

/// A cookie stands exactly where the last change of its name, domain and path stored it.
pub fn last_stands()
    ensures { LastStands }
{}
