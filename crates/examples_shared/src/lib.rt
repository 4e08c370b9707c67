// What the worked examples of the documents share: strings as the documents print them, and how an example is computed. No code stands here.
