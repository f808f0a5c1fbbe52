//! Scripts that are a slice of themselves.
use crate::slices::is_slice;
use std::test::Fail;

// Three pages with one provider, made by the program's form `make`, with its events as lines.
const THREE: &str = concat!(
    r#"{"fedcm":1,"now":0,"rules":""}"#,
    "\n",
    r#"{"do":"have","what":"kept","page":"https://rp2.example","provider":"https://accounts.idp.example","account":"u2"}"#,
    "\n",
    r#"{"do":"load","page":1,"url":"https://rp1.example/"}"#,
    "\n",
    r#"{"do":"load","page":2,"url":"https://rp2.example/"}"#,
    "\n",
    r#"{"do":"load","page":3,"url":"https://rp3.example/"}"#,
    "\n",
    r#"{"do":"get","page":1,"call":1,"providers":[{"config":"https://accounts.idp.example/fedcm.json","client":"c1"}]}"#,
    "\n",
    r#"{"do":"get","page":2,"call":2,"providers":[{"config":"https://accounts.idp.example/fedcm.json","client":"c2"}]}"#,
    "\n",
    r#"{"do":"get","page":3,"call":3,"providers":[{"config":"https://accounts.idp.example/fedcm.json","client":"c3"}]}"#,
    "\n",
    r#"{"do":"reply","call":1,"to":"wellknown","text":"HTTP/1.1 200 OK\r\nContent-Type: application/json\r\n\r\n{\"provider_urls\":[\"https://accounts.idp.example/fedcm.json\"]}"}"#,
    "\n",
    r#"{"do":"reply","call":2,"to":"wellknown","text":"HTTP/1.1 200 OK\r\nContent-Type: application/json\r\n\r\n{\"provider_urls\":[\"https://accounts.idp.example/fedcm.json\"]}"}"#,
    "\n",
    r#"{"do":"reply","call":3,"to":"wellknown","text":"HTTP/1.1 200 OK\r\nContent-Type: application/json\r\n\r\n{\"provider_urls\":[\"https://accounts.idp.example/fedcm.json\"]}"}"#,
    "\n",
    r#"{"do":"reply","call":1,"to":"config","text":"HTTP/1.1 200 OK\r\nContent-Type: application/json\r\n\r\n{\"accounts_endpoint\":\"/accounts\",\"id_assertion_endpoint\":\"/assert\",\"login_url\":\"/login\"}"}"#,
    "\n",
    r#"{"do":"reply","call":2,"to":"config","text":"HTTP/1.1 200 OK\r\nContent-Type: application/json\r\n\r\n{\"accounts_endpoint\":\"/accounts\",\"id_assertion_endpoint\":\"/assert\",\"login_url\":\"/login\"}"}"#,
    "\n",
    r#"{"do":"reply","call":3,"to":"config","text":"HTTP/1.1 200 OK\r\nContent-Type: application/json\r\n\r\n{\"accounts_endpoint\":\"/accounts\",\"id_assertion_endpoint\":\"/assert\",\"login_url\":\"/login\"}"}"#,
    "\n",
    r#"{"do":"reply","call":1,"to":"accounts","text":"HTTP/1.1 200 OK\r\nContent-Type: application/json\r\n\r\n{\"accounts\":[{\"id\":\"u1\",\"name\":\"U\",\"email\":\"u@idp.example\"}]}"}"#,
    "\n",
    r#"{"do":"reply","call":2,"to":"accounts","text":"HTTP/1.1 200 OK\r\nContent-Type: application/json\r\n\r\n{\"accounts\":[{\"id\":\"u2\",\"name\":\"U\",\"email\":\"u@idp.example\"}]}"}"#,
    "\n",
    r#"{"do":"reply","call":3,"to":"accounts","text":"HTTP/1.1 200 OK\r\nContent-Type: application/json\r\n\r\n{\"accounts\":[{\"id\":\"u3\",\"name\":\"U\",\"email\":\"u@idp.example\"}]}"}"#,
    "\n",
    r#"{"do":"continue","call":1}"#,
    "\n",
    r#"{"do":"continue","call":3}"#,
    "\n",
    r#"{"do":"reply","call":1,"to":"assertion","text":"HTTP/1.1 200 OK\r\nContent-Type: application/json\r\nAccess-Control-Allow-Origin: https://rp1.example\r\nAccess-Control-Allow-Credentials: true\r\n\r\n{\"token\":\"t1\"}"}"#,
    "\n",
    r#"{"do":"reply","call":2,"to":"assertion","text":"HTTP/1.1 200 OK\r\nContent-Type: application/json\r\nAccess-Control-Allow-Origin: https://rp2.example\r\nAccess-Control-Allow-Credentials: true\r\n\r\n{\"token\":\"t2\"}"}"#,
    "\n",
    r#"{"do":"reply","call":3,"to":"assertion","text":"HTTP/1.1 200 OK\r\nContent-Type: application/json\r\nAccess-Control-Allow-Origin: https://rp3.example\r\nAccess-Control-Allow-Credentials: true\r\n\r\n{\"token\":\"t3\"}"}"#,
    "\n",
);

// Two pages with one provider, up to their prompts.
const PROMPTS: &str = concat!(
    r#"{"fedcm":1,"now":1700000000,"rules":""}"#,
    "\n",
    r#"{"do":"load","page":1,"url":"https://rp.example/"}"#,
    "\n",
    r#"{"do":"load","page":2,"url":"https://shop.example/"}"#,
    "\n",
    r#"{"do":"get","page":1,"call":1,"providers":[{"config":"https://accounts.idp.example/fedcm.json","client":"c1","nonce":"n1"}]}"#,
    "\n",
    r#"{"do":"get","page":2,"call":2,"providers":[{"config":"https://accounts.idp.example/fedcm.json","client":"c1","nonce":"n1"}]}"#,
    "\n",
    r#"{"do":"reply","call":1,"to":"wellknown","text":"HTTP/1.1 200 OK\r\nContent-Type: application/json\r\n\r\n{\"provider_urls\":[\"https://accounts.idp.example/fedcm.json\"]}"}"#,
    "\n",
    r#"{"do":"reply","call":1,"to":"config","text":"HTTP/1.1 200 OK\r\nContent-Type: application/json\r\n\r\n{\"accounts_endpoint\":\"/accounts\",\"id_assertion_endpoint\":\"/assert\",\"login_url\":\"/login\",\"client_metadata_endpoint\":\"/client\",\"disconnect_endpoint\":\"/bye\"}"}"#,
    "\n",
    r#"{"do":"reply","call":2,"to":"wellknown","text":"HTTP/1.1 200 OK\r\nContent-Type: application/json\r\n\r\n{\"provider_urls\":[\"https://accounts.idp.example/fedcm.json\"]}"}"#,
    "\n",
    r#"{"do":"reply","call":2,"to":"config","text":"HTTP/1.1 200 OK\r\nContent-Type: application/json\r\n\r\n{\"accounts_endpoint\":\"/accounts\",\"id_assertion_endpoint\":\"/assert\",\"login_url\":\"/login\",\"client_metadata_endpoint\":\"/client\",\"disconnect_endpoint\":\"/bye\"}"}"#,
    "\n",
    r#"{"do":"reply","call":1,"to":"accounts","text":"HTTP/1.1 200 OK\r\nContent-Type: application/json\r\n\r\n{\"accounts\":[{\"id\":\"u1\",\"name\":\"Ann\",\"email\":\"ann@idp.example\"}]}"}"#,
    "\n",
    r#"{"do":"reply","call":2,"to":"accounts","text":"HTTP/1.1 200 OK\r\nContent-Type: application/json\r\n\r\n{\"accounts\":[{\"id\":\"u1\",\"name\":\"Ann\",\"email\":\"ann@idp.example\"}]}"}"#,
    "\n",
    r#"{"do":"reply","call":1,"to":"metadata","text":"HTTP/1.1 200 OK\r\nContent-Type: application/json\r\n\r\n{\"privacy_policy_url\":\"https://rp.example/privacy\"}"}"#,
    "\n",
    r#"{"do":"reply","call":2,"to":"metadata","text":"HTTP/1.1 200 OK\r\nContent-Type: application/json\r\n\r\n{\"privacy_policy_url\":\"https://rp.example/privacy\"}"}"#,
    "\n",
);

#[test]
fn one_provider_of_three_pages(rt: HostRuntime) {
    assert!(rt; is_slice(rt.alloc(), "rp1.example", THREE, THREE));
    assert!(rt; is_slice(rt.alloc(), "idp.example", THREE, THREE));
}

#[test]
fn one_provider_of_two_pages(rt: HostRuntime) {
    assert!(rt; is_slice(rt.alloc(), "rp.example", PROMPTS, PROMPTS));
}
