// Which answer a request gets.
ghost use Rattle.std.specs.Prelude.{◌≡◌};
ghost use Rattle.status_pages.specs.Requests.{answer_at, answer_to, is_reading, page_status, status_of};

/// A page that is shown.
#[derive(Clone, Copy, Debug, PartialEq, Eq)]
pub enum Page {
    /// `/`, for people.
    Overview,
    /// `/status`, the lines of `inspect`.
    Status,
    /// `/metrics`, for Prometheus.
    Metrics,
    /// `/health`, whether no topic is failed.
    Health,
}

/// What a request is answered.
#[derive(Clone, Copy, Debug, PartialEq, Eq)]
pub enum Answer {
    Shown(Page),
    NotFound,
    MethodNotAllowed,
    /// The head of the request isn't taken, for the reason of this status.
    Refused(u16),
}

/// What a request of this method for this target is answered.
pub fn answer_to(method: &str, target: &str) -> Answer
    ensures { result ≡ answer_to method.now target.now }
{
    if is_reading(method) {
        answer_at(target)
    } else {
        Answer::MethodNotAllowed
    }
}

fn is_reading(method: &str) -> bool
    ensures { result ≡ is_reading method.now }
{
    method == "GET" || method == "HEAD"
}

fn answer_at(target: &str) -> Answer
    ensures { result ≡ answer_at target.now }
{
    if target == "/" {
        Answer::Shown(Page::Overview)
    } else if target == "/status" {
        Answer::Shown(Page::Status)
    } else if target == "/metrics" {
        Answer::Shown(Page::Metrics)
    } else if target == "/health" {
        Answer::Shown(Page::Health)
    } else {
        Answer::NotFound
    }
}

/// The status of an answer, where it is known whether no topic is failed.
pub fn status_of(answer: Answer, is_healthy: bool) -> u16
    ensures { result ≡ status_of answer is_healthy }
{
    match answer {
        Answer::Shown(page) => page_status(page, is_healthy),
        Answer::NotFound => 404,
        Answer::MethodNotAllowed => 405,
        Answer::Refused(status) => status,
    }
}

fn page_status(page: Page, is_healthy: bool) -> u16
    ensures { result ≡ page_status page is_healthy }
{
    match page {
        Page::Health if !is_healthy => 503,
        Page::Overview | Page::Status | Page::Metrics | Page::Health => 200,
    }
}
