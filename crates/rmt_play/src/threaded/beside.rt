use std::sync::Wait;
use std::thread;
use std::thread::Threads;

/// What a client does while workers run beside it. It is handed back.
pub(crate) trait ClientWork: Sized {
    /// It may begin.
    ghost ready: { Self → Type 0 };

    /// What has become of it.
    ghost becomes: { Self → Self → Type 0 };

    /// Does it.
    fn run(self) -> Self
        requires { ready self }
        ensures { becomes self result };
}

/// Where workers work, each at a place of its own.
pub(crate) trait Serves<P> {
    /// Works at a place, until workers are told to stop.
    fn serve(&self, place: P);

    /// Tells the workers to stop.
    fn stop(&self);
}

/// Does a client's work while workers serve, each on a thread of its own. A thread that can't be started is left out. No thread is
/// left at the end.
pub(crate) fn beside<P: Send + Drop, S: Serves<P> + Sync, R: Threads + Wait, W: ClientWork + Drop>(
    rt: &R,
    shop: &S,
    places: Vec<P>,
    work: W,
) -> W
    requires { W.ready work }
    ensures { W.becomes work result }
{
    thread::scope(
        thread::scope_env(),
        rt,
        move |scope| -> W
            requires { W.ready work }
            ensures { W.becomes work result }
        {
            for place in places {
                let _ = scope.spawn(move || shop.serve(place));
            }
            let done = work.run();
            shop.stop();
            done
        },
    )
}
