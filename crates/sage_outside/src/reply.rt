// Replies that speak of the server's own failure.
ghost use Rattle.std.specs.Prelude.{◌≡◌};
ghost use Rattle.sage_outside.specs.Replies.{is_server_error, is_unavailable};

/// Whether the bytes begin as a 500 reply, `Internal Server Error`, of HTTP/1.1 or HTTP/1.0,
/// whatever follows (RFC 9112, 4; RFC 9110, 15.6.1).
pub fn tells_server_error(reply: &[u8]) -> bool
    ensures { result ≡ is_server_error reply.now }
{
    reply.starts_with(b"HTTP/1.1 500") || reply.starts_with(b"HTTP/1.0 500")
}

/// Whether the bytes begin as a 503 reply, `Service Unavailable`, of HTTP/1.1 or HTTP/1.0,
/// whatever follows (RFC 9112, 4; RFC 9110, 15.6.4).
pub fn tells_unavailable(reply: &[u8]) -> bool
    ensures { result ≡ is_unavailable reply.now }
{
    reply.starts_with(b"HTTP/1.1 503") || reply.starts_with(b"HTTP/1.0 503")
}
