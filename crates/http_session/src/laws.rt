//! A law of the definitions.

ghost use Rattle.std.specs.Prelude.{◌≡◌, ℕ, List};
ghost use Rattle.wire_replies.specs.Replies.{reply_text};
ghost use Rattle.wire_replies.specs.declared.reply.Reply.{Reply};
ghost use Rattle.http_session.specs.Statuses as spec;
ghost use Rattle.http_session.specs.declared.status.TheConstants.{OK};

/// The status that the text of a reply has is the status of the reply, whatever the reply. A report is no refusal.
pub fn reply_status()
    ensures each { (reply : Reply) → spec.status_of (reply_text reply) ≡ spec.reply_status reply }
    ensures report { (rest : List ℕ) → spec.reply_status (spec.report rest) ≡ OK }
{}
