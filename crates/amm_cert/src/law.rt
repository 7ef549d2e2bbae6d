//! What holds of all certificates, whoever wrote them.
ghost use Rattle.std.specs.Prelude.{◌≡◌, ◌<◌, ℕ, List, length};
ghost use Rattle.serde_json.specs.Written.{compact_text};
ghost use Rattle.amm_model.specs.declared.limits.TheConstants.{CHECK_LIMIT};
ghost use Rattle.amm_model.specs.declared.route.Quote as quote_view;
ghost use Rattle.amm_model.specs.Certificate.{IsCertifiable, IsCertificateOf, IsVersionFor, certificate_text, versioned_value};
ghost use Rattle.amm_model.specs.SplitAnswers.{IsSplitAnswer};

/// The text of a quote is a certificate of that quote; so is its text in any version that its pools
/// may be written in.
pub fn text_is_certificate()
    ensures text { (quote : quote_view.Quote) → IsCertifiable quote → IsCertificateOf (certificate_text quote) quote }
    ensures versions { (version : ℕ) (quote : quote_view.Quote) → IsVersionFor version quote.problem.pools → IsCertifiable quote →
        IsCertificateOf (compact_text (versioned_value version quote)) quote }
{}

/// So is the text of a quote that answers a split: no number of it is too wide for a certificate.
pub fn answer_has_certificate()
    ensures { (quote : quote_view.Quote) → IsSplitAnswer quote → IsCertificateOf (certificate_text quote) quote }
{}

/// The text of a quote has fewer bytes than a checker takes, so also with a newline behind it.
pub fn text_is_short()
    ensures { (quote : quote_view.Quote) → IsCertifiable quote → length (certificate_text quote) < CHECK_LIMIT }
{}

/// Bytes are a certificate of one quote at most.
pub fn certificate_has_one_quote()
    ensures { (bytes : List ℕ) (p q : quote_view.Quote) → IsCertificateOf bytes p → IsCertificateOf bytes q → p ≡ q }
{}
