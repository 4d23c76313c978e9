//! Numbers of requests and responses over HTTP.

ghost use Rattle.std.specs.Prelude.{◌≡◌, codes, false, true};
ghost use Rattle.http_messages.specs.Frames.{is_length};

use http_messages::{
    BODY_LIMIT, BODY_TOO_LARGE, HEAD_LIMIT, HEAD_TOO_LARGE, LENGTH_WANTED, MALFORMED, MOST_FIELDS,
    NO_MEMORY, NO_TRANSFER_ENCODING,
};
use http_session::{CONFLICT, MALFORMED_RECORD, NOT_ALLOWED, NOT_FOUND, NOT_KEPT, OK};

/// A lemma, never run: a head has at most 64 fields and 16,384 bytes, a body at most 1,048,576 bytes (one mebibyte), and a Content-Length at
/// most ten digits.
pub fn head_numbers()
    ensures fields { MOST_FIELDS ≡ 64 }
    ensures head { HEAD_LIMIT ≡ 16_384 }
    ensures body { BODY_LIMIT ≡ 1_048_576 }
    ensures digits { is_length (codes "0123456789") ≡ true }
    ensures more_digits { is_length (codes "01234567890") ≡ false }
{}

/// A lemma, never run: the statuses of requests that are refused as they are read, and of one that memory is wanting for.
pub fn statuses_of_requests()
    ensures malformed { MALFORMED ≡ 400 }
    ensures length { LENGTH_WANTED ≡ 411 }
    ensures body { BODY_TOO_LARGE ≡ 413 }
    ensures head { HEAD_TOO_LARGE ≡ 431 }
    ensures encoding { NO_TRANSFER_ENCODING ≡ 501 }
    ensures memory { NO_MEMORY ≡ 507 }
{}

/// A lemma, never run: the statuses of requests that are answered.
pub fn statuses_of_records()
    ensures ok { OK ≡ 200 }
    ensures not_found { NOT_FOUND ≡ 404 }
    ensures not_allowed { NOT_ALLOWED ≡ 405 }
    ensures conflict { CONFLICT ≡ 409 }
    ensures malformed { MALFORMED_RECORD ≡ 422 }
    ensures not_kept { NOT_KEPT ≡ 503 }
{}
