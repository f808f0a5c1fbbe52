//! Laws of the definitions.
ghost use Rattle.fed_provider.specs.Laws.{EndpointsAreOwn, FormIsOfFile, OneAccountsUrl, OneConfiguration};

/// Of one well-known file and one well-known URL, two configuration URLs that it lists have one text.
/// So the name of a site cannot be hidden in a configuration URL.
pub fn one_configuration()
    ensures { OneConfiguration }
{}

/// Of one well-known file and one well-known URL, all configurations that agree with a file that
/// names the endpoints have one accounts URL and one login URL, whichever their configuration URLs
/// are. So the name of a site cannot be hidden in the address of a request for accounts.
pub fn one_accounts_url()
    ensures form { FormIsOfFile }
    ensures texts { OneAccountsUrl }
{}

/// Each endpoint of a configuration that was read is same-origin with the configuration URL.
pub fn endpoints_are_own()
    ensures { EndpointsAreOwn }
{}
