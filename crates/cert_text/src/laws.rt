//! What the texts of certificates promise.
ghost use Rattle.cert_text.specs.Written.{WrittenIsRead};

/// The text of a certificate is read as that certificate, but for what it doesn't tell: whether loads are known to
/// recirculate.
pub fn written_is_read()
    ensures { WrittenIsRead }
{}
