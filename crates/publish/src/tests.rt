mod fronts;
mod one_thread;
mod threads;
